ghost use Rattle.std.specs.Prelude.{IfOk, IfErr, IsTrue, ◌≡◌};
ghost use Rattle.agg_spec.specs.Final.{final as final_answer};
ghost use Rattle.final_reduce.specs.Causes.{IsCause, IsWithinLimits};
ghost use Rattle.agg_evaluation.specs.Finishable.{can_finish};
ghost use Rattle.agg_evaluation.specs.SearchFits.{IsMade};
ghost use Rattle.final_reduce.specs.declared.finishing.FinalFault.TheVariants.{Memory as OutOfMemory};

use crate::answer::finish_each;
use crate::count::count_each;
use crate::cut::cut_each;
use crate::range::first_out_of_range;
use agg_model::{Answer, Partial, Search, Text};
use std::alloc::{AllocError, Global};

/// Why an answer is not given.
#[derive(Drop, PartialEq, Eq)]
pub enum FinalFault {
    /// The answer would have more buckets than the maximum. The count stops at 2^64 - 1.
    TooManyBuckets {
        count: u64,
        max: u64,
    },
    /// A printed number lies outside signed 64 bits.
    SumRange {
        /// `/` before each name of the aggregations on the way to the first such number.
        path: Text,
    },
    /// Memory ran out.
    Memory,
}

impl From<AllocError> for FinalFault {
    ghost from_gives = { λ _ fault. fault ≡ OutOfMemory };

    fn from(_error: AllocError) -> Self {
        FinalFault::Memory
    }
}

/// The final answer to a search that is made for a mapping, given the whole of the shard answers.
///
/// `TooManyBuckets` is an answer that would have more buckets than `max_buckets`; any other with a printed number outside signed
/// 64 bits is `SumRange`, with the path of the first one. `Memory` may come in the place of any answer.
pub fn finish(
    alloc: Global,
    search: &Search,
    max_buckets: u64,
    whole: Partial,
) -> Result<Answer, FinalFault>
    requires made { IsMade search.now }
    requires whole { IsTrue (can_finish search.now whole) }
    ensures answer { IfOk result (λ answer. answer ≡ final_answer search.now whole) }
    ensures within_limits { IfOk result (IsWithinLimits search.now max_buckets) }
    ensures fault { IfErr result (IsCause search.now max_buckets (final_answer search.now whole)) }
{
    let standing = cut_each(alloc, &search.aggs, whole.nodes)?;
    let count = count_each(&search.aggs, &standing);
    if count > max_buckets {
        return Err(FinalFault::TooManyBuckets {
            count,
            max: max_buckets,
        });
    }
    let nodes = finish_each(alloc, &search.aggs, standing)?;
    if let Some(path) = first_out_of_range(alloc, &search.aggs, &nodes)? {
        return Err(FinalFault::SumRange {
            path: Text::from_string(path),
        });
    }
    Ok(Answer {
        hits: whole.hits,
        nodes,
    })
}
