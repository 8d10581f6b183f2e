//! Buckets below which there is nothing, so that their rows are counted alone. Each code from 0 on has a counter, at the place that
//! is the code.
ghost use Rattle.std.specs.Prelude.{◌≡◌, ◌+◌, ◌∷◌, [], IfOk, OnOk, map, sum_by};
ghost use Rattle.agg_model.specs.declared.aggregation.Agg.{out-Agg};
ghost use Rattle.agg_evaluation.specs.Rows.{PlacedRow};
ghost use Rattle.evaluation_laws.proofs.CostLaws.{bytes};
ghost use Rattle.growth_laws.specs.Gathering.{put_rows};
ghost use Rattle.growing_tree.specs.CodedBuckets.{coded_bucket};
ghost use Rattle.growing_tree.specs.Frequent.{frequent};
ghost use Rattle.growing_tree.specs.Gathered.{gatherers, key_at, shown_counted};
ghost use Rattle.growing_tree.specs.Readiness.{IsReadyFor};
ghost use Rattle.growing_tree.specs.Trees.{counter_buckets};

use crate::beginning::bucket_bytes;
use crate::coded::Coded;
use crate::kinds::place_of;
use crate::ready::Ready;
use crate::tree::Growing;
use agg_model::Agg;
use shard_columns::Shard;
use std::alloc::{AllocError, Global};
use terms_agg::Counts;

/// One more row in the bucket of a code. The answer is by how many bytes the cost of the buckets rose. A code behind the last
/// counter is answered as want of memory, and so is an aggregation that has others below it.
pub(crate) fn put_one_counted(
    agg: &Agg,
    ready: &Ready,
    shard: &Shard,
    code: i64,
    counts: &mut Counts,
) -> Result<u64, AllocError>
    requires ready { IsReadyFor shard.now agg.now ready.now }
    ensures buckets { OnOk result ((row : PlacedRow) → shown_counted shard.now ready.now counts.new
        ≡ put_rows (gatherers shard.now (out-Agg agg.now).children) (row ∷ []) (key_at shard.now ready.now code)
        (shown_counted shard.now ready.now counts.old)) }
    ensures cost { IfOk result (λ added. sum_by bytes (shown_counted shard.now ready.now counts.new)
        ≡ sum_by bytes (shown_counted shard.now ready.now counts.old) + added) }
{
    let place = place_of(code)?;
    let is_first = counts.raise(place)?;
    if !is_first {
        return Ok(0);
    }
    if !agg.children.is_empty() {
        return Err(AllocError);
    }
    let begun = bucket_bytes(shard, &agg.kind, ready, code)?;
    Ok(begun)
}

/// The buckets that have at least so many rows, ascending by code.
pub(crate) fn with_counters(
    alloc: Global,
    counters: &[u64],
    least: u64,
) -> Result<Vec<Coded>, AllocError>
    ensures { IfOk result (λ coded. map coded_bucket coded.items ≡ frequent least (counter_buckets 0 counters.now)) }
{
    // Where none are too few, a counter of 0 has no bucket all the same.
    let enough = least.max(1);
    let mut coded = Vec::new(alloc);
    for place in 0..counters.len() {
        if counters[place] >= enough {
            coded.push(Coded {
                code: i64::try_from(place).map_err(|_| AllocError)?,
                bucket: Growing {
                    count: counters[place],
                    children: Vec::new(alloc),
                },
            })?;
        }
    }
    Ok(coded)
}
