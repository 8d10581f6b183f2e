//! Rows in buckets over metrics alone. Those of a block go in two passes: first all get the places of their buckets, and then they go
//! into them. Each pass is short, so that the processor waits for the memory of many rows at once.
ghost use Rattle.std.specs.Prelude.{◌≡◌, ◌<◌, ◌≤◌, ◌+◌, ◌++◌, ◌∷◌, [], ℕ, All, IfOk, IsTrue, List as AnyList, OnOk, length, sum_by};
ghost use Rattle.std.specs.List.{list_all};
ghost use Rattle.agg_model.specs.declared.aggregation.Agg.{out-Agg};
ghost use Rattle.agg_evaluation.specs.Rows.{row_of};
ghost use Rattle.evaluation_laws.proofs.CostLaws.{bytes};
ghost use Rattle.growth_laws.specs.Gathering.{put_rows};
ghost use Rattle.shard_columns.specs.Built.{IsShard};
ghost use Rattle.growing_tree.specs.Gathered.{gatherers, key_at, rows_at};
ghost use Rattle.growing_tree.specs.GatheredEach.{AreRises, after_each, bytes_after, put_at_keys};
ghost use Rattle.growing_tree.specs.Placements.{ArePlacements, counts_with, shown_with, taken_with};
ghost use Rattle.growing_tree.specs.Measures.{metrics_at};
ghost use Rattle.growing_tree.specs.Readiness.{IsReadyFor, is_metric};
ghost use Rattle.growing_tree.specs.Trees.{IsIndexed};
ghost use Rattle.growing_tree.specs.declared.placing.Placement.{Placement as AnyPlacement};

use crate::at_codes::{TakesRow, put_each_alone};
use crate::beginning::bucket_bytes;
use crate::measured::{Measured, begin_measured, take_measured};
use crate::number::Taken;
use crate::ready::Ready;
use agg_model::{Agg, List};
use bucket_places::Place;
use shard_columns::Shard;
use std::alloc::{AllocError, Global};

/// A row that goes into the bucket at a place.
#[derive(Clone, Copy, Debug, PartialEq, Eq)]
pub(crate) struct Placement {
    pub(crate) row: u32,
    pub(crate) place: usize,
}

/// The place of a bucket, and what it costs where it was begun for that.
#[derive(Clone, Copy, Debug, PartialEq, Eq)]
pub(crate) struct Spot {
    pub(crate) place: usize,
    pub(crate) begun: u64,
}

/// The place of the bucket of a code, which is begun without rows where there was none. Whatever rows are still to go into the
/// buckets, one more that goes to this place is in the bucket of the code.
pub(crate) fn place_for(
    agg: &Agg,
    ready: &Ready,
    shard: &Shard,
    code: i64,
    measured: &mut Measured,
) -> Result<Spot, AllocError>
    requires ready { IsReadyFor shard.now agg.now ready.now }
    requires metrics { IsTrue (list_all (λ a. is_metric (out-Agg a).kind) (out-Agg agg.now).children) }
    ensures within { IfOk result (λ spot. spot.place < length measured.new.counts.items) }
    ensures more { OnOk result (length measured.old.counts.items ≤ length measured.new.counts.items) }
    ensures buckets { IfOk result (λ spot. (placements : AnyList AnyPlacement) (row : ℕ)
        → All (λ p. p.place < length measured.old.counts.items) placements →
        shown_with shard.now agg.now ready.now measured.new (placements ++ record { row = row; place = spot.place } ∷ [])
        ≡ put_rows (gatherers shard.now (out-Agg agg.now).children) (row_of shard.now.rows row ∷ []) (key_at shard.now ready.now code)
        (shown_with shard.now agg.now ready.now measured.old placements)) }
    ensures cost { IfOk result (λ spot. (placements : AnyList AnyPlacement) (row : ℕ)
        → All (λ p. p.place < length measured.old.counts.items) placements →
        sum_by bytes (shown_with shard.now agg.now ready.now measured.new (placements ++ record { row = row; place = spot.place } ∷ []))
        ≡ sum_by bytes (shown_with shard.now agg.now ready.now measured.old placements) + spot.begun) }
    ensures aligned { IsIndexed measured.old.places measured.old.counts.items → IsIndexed measured.new.places measured.new.counts.items }
{
    let found = measured.places.find_or_add(code)?;
    match found {
        Place::Found(place) => {
            if place >= measured.counts.len() {
                return Err(AllocError);
            }
            Ok(Spot { place, begun: 0 })
        }
        Place::Added(place) => {
            if place != measured.counts.len() {
                return Err(AllocError);
            }
            let begun = bucket_bytes(shard, &agg.kind, ready, code)?;
            begin_measured(
                agg.children.len(),
                &mut measured.counts,
                &mut measured.columns,
            )?;
            Ok(Spot { place, begun })
        }
    }
}

/// One more row in the bucket of a code. The answer is by how many bytes the cost of the buckets rose.
pub(crate) fn put_one_measured(
    agg: &Agg,
    ready: &Ready,
    shard: &Shard,
    row: u32,
    code: i64,
    measured: &mut Measured,
) -> Result<u64, AllocError>
    requires ready { IsReadyFor shard.now agg.now ready.now }
    requires metrics { IsTrue (list_all (λ a. is_metric (out-Agg a).kind) (out-Agg agg.now).children) }
    requires in_range { row < length shard.now.rows }
    ensures buckets { OnOk result (shown_with shard.now agg.now ready.now measured.new []
        ≡ put_rows (gatherers shard.now (out-Agg agg.now).children) (row_of shard.now.rows row ∷ []) (key_at shard.now ready.now code)
        (shown_with shard.now agg.now ready.now measured.old [])) }
    ensures cost { IfOk result (λ added. sum_by bytes (shown_with shard.now agg.now ready.now measured.new [])
        ≡ sum_by bytes (shown_with shard.now agg.now ready.now measured.old []) + added) }
    ensures aligned { IsIndexed measured.old.places measured.old.counts.items → IsIndexed measured.new.places measured.new.counts.items }
{
    let spot = place_for(agg, ready, shard, code, measured)?;
    take_measured(
        &agg.children,
        shard,
        row,
        spot.place,
        &mut measured.counts,
        &mut measured.columns,
    )?;
    Ok(spot.begun)
}

/// A row is placed, and waits to go into its bucket.
impl TakesRow<Vec<Placement>> for Measured {
    ghost shown = { λ shard a r m placements. shown_with shard a r m placements.items };

    ghost IsFit = { λ shard m placements. ArePlacements (length m.counts.items) shard placements.items };

    ghost Stays = { λ old new. IsIndexed old.places old.counts.items → IsIndexed new.places new.counts.items };

    fn put(
        &mut self,
        agg: &Agg,
        ready: &Ready,
        shard: &Shard,
        row: u32,
        code: i64,
        placements: &mut Vec<Placement>,
    ) -> Result<u64, AllocError> {
        let spot = place_for(agg, ready, shard, code, self)?;
        placements.push(Placement {
            row,
            place: spot.place,
        })?;
        Ok(spot.begun)
    }

    ghost stays_none = { λ m h. h };

    ghost stays_more = { λ s t u first next h. next (first h) };
}

// Rows go into the buckets at their places.
fn take_placed(
    aggs: &List<Agg>,
    shard: &Shard,
    placements: &[Placement],
    counts: &mut Vec<u64>,
    columns: &mut Vec<Vec<Taken>>,
) -> Result<(), AllocError>
    requires metrics { IsTrue (list_all (λ a. is_metric (out-Agg a).kind) aggs.now) }
    requires in_range { All (λ p. p.row < length shard.now.rows) placements.now }
    ensures many { length counts.new.items ≡ length counts.old.items }
    ensures counts { OnOk result (counts.new.items ≡ counts_with placements.now counts.old.items) }
    ensures metrics { OnOk result ((n : ℕ) → metrics_at columns.new.items n
        ≡ taken_with aggs.now (row_of shard.now.rows) placements.now (metrics_at columns.old.items) n) }
{
    for place in 0..placements.len() {
        let placement = placements[place];
        take_measured(aggs, shard, placement.row, placement.place, counts, columns)?;
    }
    Ok(())
}

/// More rows in the buckets of their keys, one after another; to the number of each is added by how many bytes the cost of the
/// buckets rose at it.
pub(crate) fn put_block(
    alloc: Global,
    agg: &Agg,
    ready: &Ready,
    shard: &Shard,
    rows: &[u32],
    spare: &mut Vec<Vec<i64>>,
    measured: &mut Measured,
    added: &mut Vec<u64>,
) -> Result<(), AllocError>
    requires ready { IsReadyFor shard.now agg.now ready.now }
    requires metrics { IsTrue (list_all (λ a. is_metric (out-Agg a).kind) (out-Agg agg.now).children) }
    requires built { IsShard shard.now }
    requires in_range { All (λ n. n < length shard.now.rows) rows.now }
    requires many { length added.old.items ≡ length rows.now }
    ensures buckets { OnOk result (shown_with shard.now agg.now ready.now measured.new [] ≡ after_each
        (put_at_keys shard.now.rows (gatherers shard.now (out-Agg agg.now).children) (out-Agg agg.now).kind)
        (rows_at shard.now rows.now) (shown_with shard.now agg.now ready.now measured.old [])) }
    ensures rises { OnOk result (AreRises (bytes_after
        (put_at_keys shard.now.rows (gatherers shard.now (out-Agg agg.now).children) (out-Agg agg.now).kind)
        (rows_at shard.now rows.now) (shown_with shard.now agg.now ready.now measured.old []))
        (length rows.now) added.old.items added.new.items) }
    ensures aligned { IsIndexed measured.old.places measured.old.counts.items → IsIndexed measured.new.places measured.new.counts.items }
{
    let mut placements = Vec::with_capacity(alloc, rows.len())?;
    put_each_alone(
        alloc,
        agg,
        ready,
        shard,
        rows,
        spare,
        measured,
        &mut placements,
        added,
    )?;
    take_placed(
        &agg.children,
        shard,
        placements.as_slice(),
        &mut measured.counts,
        &mut measured.columns,
    )?;
    Ok(())
}
