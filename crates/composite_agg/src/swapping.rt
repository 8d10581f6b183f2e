//! The children of a bucket of a page, exchanged for others.
ghost use Rattle.std.specs.Prelude.{◌≡◌, IsTrue, false, length, map};
ghost use Rattle.agg_evaluation.specs.CompositeKeys.{is_composite_of};
ghost use Rattle.agg_evaluation.specs.KeyOrder.{has_key};
ghost use Rattle.agg_evaluation.specs.Orders.{bucket_key};
ghost use Rattle.composite_page.specs.Pages.{are_composite};
ghost use Rattle.composite_agg.specs.FirstPages.{AreInOrder, children_of, with_children};
ghost use Rattle.composite_agg.specs.Runs.{AreFilled, in_runs};

use crate::runs::find_spot;
use agg_model::{Bucket, CompositeSource, Key, List, Node};
use std::mem::swap;

fn has_part_for_each(sources: &List<CompositeSource>, key: &Key) -> bool
    ensures { result ≡ is_composite_of (length sources.now) key.now }
{
    match key {
        Key::Many(parts) => parts.len() == sources.len(),
        Key::Null | Key::Whole(_) | Key::Flag(_) | Key::Word(_) | Key::Fixed(_) => false,
    }
}

/// Exchanges the children of the bucket of a key with those that are lent, and answers whether the key is there.
pub fn swap_in(
    sources: &List<CompositeSource>,
    runs: &mut Vec<Vec<Bucket>>,
    key: &Key,
    children: &mut List<Node>,
) -> bool
    requires order { AreInOrder sources.now (in_runs runs.old.items) }
    requires filled { AreFilled runs.old.items }
    requires parts { IsTrue (are_composite (length sources.now) (in_runs runs.old.items)) }
    ensures held { result ≡ has_key key.now (map bucket_key (in_runs runs.old.items)) }
    ensures buckets { in_runs runs.new.items ≡ map (with_children key.now children.old) (in_runs runs.old.items) }
    ensures filled { AreFilled runs.new.items }
    ensures children { children.new ≡ children_of key.now children.old (in_runs runs.old.items) }
{
    if !has_part_for_each(sources, key) {
        return false;
    }
    match find_spot(sources, runs.as_slice(), key) {
        Ok(spot) => {
            swap(&mut runs[spot.run][spot.at].children, children);
            true
        }
        Err(_) => false,
    }
}
