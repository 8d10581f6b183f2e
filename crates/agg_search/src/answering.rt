//! The outcome of a search whose tasks and merges have ended.
ghost use Rattle.std.specs.Prelude.{◌≡◌, ◌≤◌, ℕ, [], IfOk, None, Ok, length};
ghost use Rattle.agg_model.specs.declared.aggregation.Search.{Search as AnySearch};
ghost use Rattle.agg_model.specs.declared.outcome.Outcome.TheVariants.{Tripped as AsTripped};
ghost use Rattle.agg_spec.specs.Failures.{AreFailures, unfailed};
ghost use Rattle.agg_spec.specs.Index.{Index as AnyIndex};
ghost use Rattle.agg_spec.specs.Notes.{piped};
ghost use Rattle.agg_spec.specs.Outcome.{Request, line_in_range, outcome_of_shards, whole_unless_none, wide_path};
ghost use Rattle.agg_spec.specs.RangeCheck.{out_of_range};
ghost use Rattle.agg_spec.specs.Response.{response_line};
ghost use Rattle.agg_search.specs.Defined.{CanRun};
ghost use Rattle.fitting_laws.specs.Indexes.{index_of};
ghost use Rattle.agg_search.specs.Paging.{IsBehind, next_of};

use crate::paging::{Found, last_key, search_behind};
use agg_model::{Answer, Failure, List, Outcome, Partial, Refused, Search, Tripped};
use agg_response::response;
use final_reduce::{FinalFault, finish};
use pipeline_agg::{PipeFault, apply};
use shard_columns::Index;
use std::alloc::{AllocError, Global};

/// The refusal of the first shard that failed, where no shard is left.
fn total_failure(failures: &List<Failure>) -> Tripped
    requires { 1 ≤ length failures.now }
    ensures { (index : AnyIndex) (max : ℕ) (search : AnySearch) →
        AsTripped result ≡ outcome_of_shards index max search failures.now [] }
{
    failures.as_slice()[0].tripped
}

/// The response to a search with what its pipelines say of the answer, and the search of the page behind it; a refusal where
/// the value of a pipeline lies outside signed 64 bits.
fn answered(
    alloc: Global,
    index: &Index,
    search: Search,
    failures: &List<Failure>,
    answer: Answer,
) -> Result<Found, AllocError>
    requires in_range { out_of_range search answer ≡ None }
    requires few { length failures.now ≤ length index.now.shards }
    ensures outcome { IfOk result (λ found. found.outcome ≡ line_in_range (wide_path search answer)
        (response_line search index.now.mapping (piped search answer) (length index.now.shards) failures.now)) }
    ensures next { IfOk result (λ found. found.next ≡ next_of search answer found.outcome) }
{
    let key = last_key(alloc, &answer)?;
    match apply(alloc, &search, answer) {
        Ok(piped) => {
            let shards = index.shards.len() as u32;
            let line = response(alloc, &search, &index.mapping, &piped, shards, failures)?;
            Ok(Found {
                outcome: Outcome::Response(line),
                next: search_behind(search, key),
            })
        }
        Err(PipeFault::SumRange { path }) => Ok(Found::without_page(Outcome::Refused(
            Refused::SumRange { path },
        ))),
        Err(PipeFault::Memory) => Err(AllocError),
    }
}

/// What the whole of the shards that are left comes to: the response, with the search of the page behind it, or why there is
/// none. `max_buckets` is the most buckets of an answer; the failures are the shards that are left out, by ascending number; where no shard is left
/// there is no whole. It fails only where memory is wanting.
pub fn outcome_of(
    alloc: Global,
    index: &Index,
    search: Search,
    max_buckets: u64,
    failures: &List<Failure>,
    whole: Option<Partial>,
) -> Result<Found, AllocError>
    requires search { CanRun index.now search }
    requires failures { AreFailures (length index.now.shards) failures.now }
    requires whole { whole
        ≡ whole_unless_none (index_of index.now) search (unfailed (index_of index.now) failures.now) }
    ensures outcome { IfOk result (λ found. found.outcome ≡ outcome_of_shards (index_of index.now) max_buckets search
        failures.now (unfailed (index_of index.now) failures.now)) }
    ensures next { IfOk result (λ found. (request : Request) → request.search ≡ Ok search →
        IsBehind index.now request found.outcome failures.now found.next) }
{
    let Some(whole) = whole else {
        return Ok(Found::without_page(Outcome::Tripped(total_failure(failures))));
    };
    match finish(alloc, &search, max_buckets, whole) {
        Ok(answer) => answered(alloc, index, search, failures, answer),
        Err(FinalFault::TooManyBuckets { count, max }) => Ok(Found::without_page(Outcome::Refused(
            Refused::TooManyBuckets { count, max },
        ))),
        Err(FinalFault::SumRange { path }) => Ok(Found::without_page(Outcome::Refused(
            Refused::SumRange { path },
        ))),
        Err(FinalFault::Memory) => Err(AllocError),
    }
}
