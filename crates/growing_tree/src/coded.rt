//! Buckets that have all their rows, with the codes of their keys.
ghost use Rattle.std.specs.Prelude.{◌≡◌, IfOk, OnOk, map};
ghost use Rattle.list_laws.specs.Sorting.{sorted};
ghost use Rattle.growing_tree.specs.CodedBuckets.{by_code, code_order, coded_bucket, from_last};
ghost use Rattle.growing_tree.specs.Frequent.{frequent};
ghost use Rattle.growing_tree.specs.Trees.{coded_buckets};

use crate::kinds::is_terms;
use crate::tree::{Growing, Keyed};
use agg_model::Kind;
use std::alloc::{AllocError, Global};

/// A bucket, and the code that stands for its key.
#[derive(Drop)]
pub(crate) struct Coded {
    pub(crate) code: i64,
    pub(crate) bucket: Growing,
}

/// The buckets that have at least so many rows, with their codes, in the order in which those came.
pub(crate) fn with_codes(alloc: Global, keyed: Keyed, least: u64) -> Result<Vec<Coded>, AllocError>
    ensures { IfOk result (λ coded. map coded_bucket coded.items ≡ frequent least (coded_buckets keyed.places keyed.buckets.items)) }
{
    let Keyed { places, buckets } = keyed;
    let mut coded = Vec::new(alloc);
    let mut left = buckets.into_iter();
    for code in places.codes() {
        let Some(bucket) = left.next() else {
            return Ok(coded);
        };
        if bucket.count >= least {
            coded.push(Coded {
                code: *code,
                bucket,
            })?;
        }
    }
    Ok(coded)
}

// Ascending by code.
fn sort_from_first(buckets: &mut Vec<Coded>) -> Result<(), AllocError>
    ensures { OnOk result (buckets.new.items ≡ sorted by_code buckets.old.items) }
{
    buckets.sort_by(|a, b| a.code.cmp(&b.code))
}

// Descending by code.
fn sort_from_last(buckets: &mut Vec<Coded>) -> Result<(), AllocError>
    ensures { OnOk result (buckets.new.items ≡ sorted from_last buckets.old.items) }
{
    buckets.sort_by(|a, b| b.code.cmp(&a.code))
}

/// Puts buckets in the order of their codes, those of terms from the last one on: they are cut from the end, so that the first
/// keys are kept early, and most others are left out at one comparison.
pub(crate) fn sort_by_code(kind: &Kind, buckets: &mut Vec<Coded>) -> Result<(), AllocError>
    ensures { OnOk result (buckets.new.items ≡ sorted (code_order kind.now) buckets.old.items) }
{
    if is_terms(kind) {
        sort_from_last(buckets)?;
    } else {
        sort_from_first(buckets)?;
    }
    Ok(())
}
