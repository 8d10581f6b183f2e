//! One more key in a page.
ghost use Rattle.std.specs.Prelude.{◌≡◌, ◌<◌, ◌-◌, ◌^◌, IfOk, OnOk, OnErr, IsTrue, length};
ghost use Rattle.std.specs.List.{AllByRecursion};
ghost use Rattle.agg_evaluation.specs.CompositeKeys.{is_composite_of};
ghost use Rattle.composite_agg.specs.FirstPages.{FirstPage, IsPage, answer_of, page_with};
ghost use Rattle.composite_agg.specs.Runs.{AreFilled, in_runs};

use crate::offered::Offered;
use crate::runs::{enter, find_spot, is_outside};
use agg_model::{Bucket, CompositeSource, Key, List, Node};
use std::alloc::AllocError;

/// Puts a key into the buckets of a page, of which `held` is the number, or counts it there. After want of memory they are as
/// before.
pub fn offer_to(
    sources: &List<CompositeSource>,
    size: u32,
    after: &Option<Key>,
    held: &mut usize,
    runs: &mut Vec<Vec<Bucket>>,
    key: Key,
    children: List<Node>,
) -> Result<Offered, AllocError>
    requires page { IsPage (record { sources = sources.now; size = size; after = after.now; buckets = in_runs runs.old.items }) }
    requires filled { AreFilled runs.old.items }
    requires held { held.old ≡ length (in_runs runs.old.items) }
    requires parts { IsTrue (is_composite_of (length sources.now) key) }
    requires few { AllByRecursion (λ b. b.count < 2 ^ 64 - 1) (in_runs runs.old.items) }
    ensures answer { IfOk result (λ o. o
        ≡ answer_of (record { sources = sources.now; size = size; after = after.now; buckets = in_runs runs.old.items }) key) }
    ensures page { OnOk result (in_runs runs.new.items
        ≡ (page_with (record { sources = sources.now; size = size; after = after.now; buckets = in_runs runs.old.items })
        key children).buckets) }
    ensures err { OnErr result (in_runs runs.new.items ≡ in_runs runs.old.items) }
    ensures kept { IsPage (record { sources = sources.now; size = size; after = after.now; buckets = in_runs runs.new.items }) }
    ensures filled { AreFilled runs.new.items }
    ensures held { held.new ≡ length (in_runs runs.new.items) }
{
    if is_outside(sources, size, after, *held, runs.as_slice(), &key) {
        return Ok(Offered::Outside);
    }
    match find_spot(sources, runs.as_slice(), &key) {
        Ok(spot) => {
            runs[spot.run][spot.at].count += 1;
            Ok(Offered::Counted)
        }
        Err(spot) => {
            let bucket = Bucket {
                key,
                count: 1,
                covered: 0,
                children,
            };
            let evicted = enter(size, held, runs, spot, bucket)?;
            Ok(Offered::Entered { evicted })
        }
    }
}
