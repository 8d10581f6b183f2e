//! Rows in the buckets of their codes, one after another, whatever takes them.
ghost use Rattle.std.specs.Prelude.{◌≡◌, ◌<◌, ◌+◌, ◌∷◌, [], All, IfOk, IsTrue, List as AnyList, OnOk, length, map, sum_by};
ghost use Rattle.std.specs.List.{list_all};
ghost use Rattle.agg_model.specs.declared.aggregation.Agg.{Agg as AnyAgg, out-Agg};
ghost use Rattle.agg_model.specs.declared.partial.Bucket.{Bucket as AnyBucket};
ghost use Rattle.agg_evaluation.specs.Keys.{keys};
ghost use Rattle.agg_evaluation.specs.Rows.{row_of};
ghost use Rattle.evaluation_laws.proofs.CostLaws.{bytes};
ghost use Rattle.growth_laws.specs.Gathering.{put_rows};
ghost use Rattle.shard_columns.specs.Built.{IsShard};
ghost use Rattle.shard_columns.specs.Columns.{Columns};
ghost use Rattle.growing_tree.specs.Gathered.{gatherers, key_at, rows_at};
ghost use Rattle.growing_tree.specs.GatheredEach.{AreRises, after_each, bytes_after, put_at_keys};
ghost use Rattle.growing_tree.specs.Readiness.{IsReadyFor, is_metric};
ghost use Rattle.growing_tree.specs.Shown.{put_all};
ghost use Rattle.growing_tree.specs.declared.ready.Ready.{Ready as AnyReady};

use crate::kinds::{lone_code, row_codes};
use crate::ready::Ready;
use crate::sums::sum;
use agg_model::Agg;
use shard_columns::Shard;
use std::alloc::{AllocError, Global};

/// What takes rows into the buckets of their codes, with those that wait to go into them.
pub(crate) trait TakesRow<Waiting> {
    /// The buckets, once those that wait are in them.
    ghost shown: { Columns → AnyAgg → AnyReady → Self → Waiting → AnyList AnyBucket };

    /// Those that wait have places in the buckets.
    ghost IsFit: { Columns → Self → Waiting → Type 0 };

    /// What stays, whatever rows are taken.
    ghost Stays: { Self → Self → Type 0 };

    /// One more row in the bucket of a code. The answer is by how many bytes the cost of the buckets rose.
    fn put(
        &mut self,
        agg: &Agg,
        ready: &Ready,
        shard: &Shard,
        row: u32,
        code: i64,
        waiting: &mut Waiting,
    ) -> Result<u64, AllocError>
        requires ready { IsReadyFor shard.now agg.now ready.now }
        requires metrics { IsTrue (list_all (λ a. is_metric (out-Agg a).kind) (out-Agg agg.now).children) }
        requires in_range { row < length shard.now.rows }
        requires fit { IsFit shard.now self.old waiting.old }
        ensures buckets { OnOk result (shown shard.now agg.now ready.now self.new waiting.new
            ≡ put_rows (gatherers shard.now (out-Agg agg.now).children) (row_of shard.now.rows row ∷ []) (key_at shard.now ready.now code)
            (shown shard.now agg.now ready.now self.old waiting.old)) }
        ensures cost { IfOk result (λ added. sum_by bytes (shown shard.now agg.now ready.now self.new waiting.new)
            ≡ sum_by bytes (shown shard.now agg.now ready.now self.old waiting.old) + added) }
        ensures fit { OnOk result (IsFit shard.now self.new waiting.new) }
        ensures stays { Stays self.old self.new };

    /// Also where no row was taken.
    ghost stays_none: { (s : Self) → Stays s s };

    /// And where rows were taken twice.
    ghost stays_more: { (s t u : Self) → Stays s t → Stays t u → Stays s u };
}

// One more row in the buckets of its codes, one after another.
fn put_at<Waiting, T: TakesRow<Waiting>>(
    agg: &Agg,
    ready: &Ready,
    shard: &Shard,
    row: u32,
    codes: &[i64],
    buckets: &mut T,
    waiting: &mut Waiting,
) -> Result<u64, AllocError>
    requires ready { IsReadyFor shard.now agg.now ready.now }
    requires metrics { IsTrue (list_all (λ a. is_metric (out-Agg a).kind) (out-Agg agg.now).children) }
    requires in_range { row < length shard.now.rows }
    requires fit { T.IsFit shard.now buckets.old waiting.old }
    ensures buckets { OnOk result (T.shown shard.now agg.now ready.now buckets.new waiting.new
        ≡ put_all (λ k. row_of shard.now.rows row ∷ []) (gatherers shard.now (out-Agg agg.now).children)
        (map (key_at shard.now ready.now) codes.now)
        (T.shown shard.now agg.now ready.now buckets.old waiting.old)) }
    ensures cost { IfOk result (λ added. sum_by bytes (T.shown shard.now agg.now ready.now buckets.new waiting.new)
        ≡ sum_by bytes (T.shown shard.now agg.now ready.now buckets.old waiting.old) + added) }
    ensures fit { OnOk result (T.IsFit shard.now buckets.new waiting.new) }
    ensures stays { T.Stays buckets.old buckets.new }
{
    let mut added = 0;
    for place in 0..codes.len() {
        let more = buckets.put(agg, ready, shard, row, codes[place], waiting)?;
        added = sum(added, more)?;
    }
    Ok(added)
}

/// One more row in the buckets of its keys. The answer is by how many bytes their cost rose.
pub(crate) fn put_alone<Waiting, T: TakesRow<Waiting>>(
    alloc: Global,
    agg: &Agg,
    ready: &Ready,
    shard: &Shard,
    row: u32,
    spare: &mut Vec<Vec<i64>>,
    buckets: &mut T,
    waiting: &mut Waiting,
) -> Result<u64, AllocError>
    requires ready { IsReadyFor shard.now agg.now ready.now }
    requires metrics { IsTrue (list_all (λ a. is_metric (out-Agg a).kind) (out-Agg agg.now).children) }
    requires built { IsShard shard.now }
    requires in_range { row < length shard.now.rows }
    requires fit { T.IsFit shard.now buckets.old waiting.old }
    ensures buckets { OnOk result (T.shown shard.now agg.now ready.now buckets.new waiting.new
        ≡ put_all (λ k. row_of shard.now.rows row ∷ []) (gatherers shard.now (out-Agg agg.now).children)
        (keys shard.now.rows (out-Agg agg.now).kind (row_of shard.now.rows row))
        (T.shown shard.now agg.now ready.now buckets.old waiting.old)) }
    ensures cost { IfOk result (λ added. sum_by bytes (T.shown shard.now agg.now ready.now buckets.new waiting.new)
        ≡ sum_by bytes (T.shown shard.now agg.now ready.now buckets.old waiting.old) + added) }
    ensures fit { OnOk result (T.IsFit shard.now buckets.new waiting.new) }
    ensures stays { T.Stays buckets.old buckets.new }
{
    match lone_code(shard, &agg.kind, &ready.kind, row) {
        Some(Some(code)) => {
            let more = buckets.put(agg, ready, shard, row, code, waiting)?;
            Ok(more)
        }
        Some(None) => Ok(0),
        None => {
            let mut codes = spare.pop().unwrap_or(Vec::new(alloc));
            row_codes(shard, &agg.kind, &ready.kind, row, &mut codes)?;
            let more = put_at(agg, ready, shard, row, codes.as_slice(), buckets, waiting)?;
            spare.push(codes)?;
            Ok(more)
        }
    }
}

/// More rows in the buckets of their keys, one after another; to the number of each is added by how many bytes their cost rose.
pub(crate) fn put_each_alone<Waiting, T: TakesRow<Waiting>>(
    alloc: Global,
    agg: &Agg,
    ready: &Ready,
    shard: &Shard,
    rows: &[u32],
    spare: &mut Vec<Vec<i64>>,
    buckets: &mut T,
    waiting: &mut Waiting,
    added: &mut Vec<u64>,
) -> Result<(), AllocError>
    requires ready { IsReadyFor shard.now agg.now ready.now }
    requires metrics { IsTrue (list_all (λ a. is_metric (out-Agg a).kind) (out-Agg agg.now).children) }
    requires built { IsShard shard.now }
    requires in_range { All (λ n. n < length shard.now.rows) rows.now }
    requires fit { T.IsFit shard.now buckets.old waiting.old }
    requires many { length added.old.items ≡ length rows.now }
    ensures buckets { OnOk result (T.shown shard.now agg.now ready.now buckets.new waiting.new ≡ after_each
        (put_at_keys shard.now.rows (gatherers shard.now (out-Agg agg.now).children) (out-Agg agg.now).kind)
        (rows_at shard.now rows.now) (T.shown shard.now agg.now ready.now buckets.old waiting.old)) }
    ensures rises { OnOk result (AreRises (bytes_after
        (put_at_keys shard.now.rows (gatherers shard.now (out-Agg agg.now).children) (out-Agg agg.now).kind)
        (rows_at shard.now rows.now) (T.shown shard.now agg.now ready.now buckets.old waiting.old))
        (length rows.now) added.old.items added.new.items) }
    ensures fit { OnOk result (T.IsFit shard.now buckets.new waiting.new) }
    ensures stays { T.Stays buckets.old buckets.new }
{
    for place in 0..rows.len() {
        let more = put_alone(
            alloc,
            agg,
            ready,
            shard,
            rows[place],
            spare,
            buckets,
            waiting,
        )?;
        let next = sum(added[place], more)?;
        added[place] = next;
    }
    Ok(())
}
