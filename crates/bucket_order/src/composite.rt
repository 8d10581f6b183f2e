ghost use Rattle.std.specs.Prelude.{◌≡◌, Some, None, option_copied};
ghost use Rattle.bucket_order.specs.Composites.{any_parts_cmp, part_cmp, key_parts, first_of};

use crate::compare::{compare_keys, directed_by};
use agg_model::{CompositeSource, Key, List};
use std::cmp::Ordering;

fn parts_of(key: &Key) -> &[Key]
    ensures { result.now ≡ key_parts key.now }
{
    match key {
        Key::Many(parts) => parts.as_slice(),
        Key::Null | Key::Whole(_) | Key::Flag(_) | Key::Word(_) | Key::Fixed(_) => &[],
    }
}

// A part that is not there comes last.
fn compare_parts(descending: bool, a: Option<&Key>, b: Option<&Key>) -> Ordering
    ensures { result ≡ part_cmp descending (option_copied a.entry) (option_copied b.entry) }
{
    match (a, b) {
        (None, None) => Ordering::Equal,
        (None, Some(_)) => Ordering::Greater,
        (Some(_), None) => Ordering::Less,
        (Some(j), Some(k)) => directed_by(descending, compare_keys(j, k)),
    }
}

/// The order of composite keys: part by part, each by the direction of its source. A part that is not there
/// comes last, so that any two keys have an order.
pub fn compare_composites(sources: &List<CompositeSource>, a: &Key, b: &Key) -> Ordering
    ensures { result ≡ any_parts_cmp sources.now (key_parts a.now) (key_parts b.now) }
{
    let mut left = parts_of(a);
    let mut right = parts_of(b);
    for source in sources.as_slice() {
        let ordering = compare_parts(source.descending, left.first(), right.first());
        if ordering != Ordering::Equal {
            return ordering;
        }
        left = left.get(1..).unwrap_or(&[]);
        right = right.get(1..).unwrap_or(&[]);
    }
    Ordering::Equal
}
