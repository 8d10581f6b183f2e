//! Single rows in the buckets of an aggregation below which there are metrics, or nothing: they need no list of rows, and no
//! call on the way down calls itself.
ghost use Rattle.std.specs.Prelude.{◌≡◌, ◌<◌, ◌+◌, ◌∷◌, [], All, IfOk, IsTrue, OnOk, length, sum_by};
ghost use Rattle.std.specs.List.{list_all};
ghost use Rattle.agg_model.specs.declared.aggregation.Agg.{out-Agg};
ghost use Rattle.agg_evaluation.specs.Cost.{node_cost};
ghost use Rattle.agg_evaluation.specs.Rows.{row_of};
ghost use Rattle.evaluation_laws.proofs.CostLaws.{bytes};
ghost use Rattle.shard_columns.specs.Built.{IsShard};
ghost use Rattle.growth_laws.specs.Gathering.{gathered, gathered_buckets, gathered_children, put_rows};
ghost use Rattle.growing_tree.specs.Codes.{HasFixedKeys};
ghost use Rattle.growing_tree.specs.Decoded.{decoded};
ghost use Rattle.growing_tree.specs.Gathered.{decoders, gatherers, key_at, rows_at, shown_children, shown_fixed, shown_level};
ghost use Rattle.growing_tree.specs.Grown.{IsGrown, grown-more, grown-none};
ghost use Rattle.growing_tree.specs.Readiness.{IsReadyFor, is_keyed, is_metric};
ghost use Rattle.growing_tree.specs.Shown.{HasGathered, IsAlike};
ghost use Rattle.growing_tree.specs.Trees.{IsAligned};
ghost use Rattle.growing_tree.specs.declared.ready.Ready.{out-Ready};

use crate::at_codes::{TakesRow, put_alone};
use crate::counted::put_one_counted;
use crate::kinds::{has_fixed_keys, place_of, take_one};
use crate::placing::put_one_measured;
use crate::ready::Ready;
use crate::sums::sum;
use crate::tree::{Growing, Level, Tree};
use agg_model::{Agg, List};
use shard_columns::Shard;
use std::alloc::{AllocError, Global};

/// The values of one more row in the tree of a metric, which costs what it did.
pub(crate) fn take_in_tree(
    agg: &Agg,
    ready: &Ready,
    shard: &Shard,
    row: u32,
    tree: &mut Tree,
) -> Result<(), AllocError>
    requires metric { IsTrue (is_metric (out-Agg agg.now).kind) }
    requires in_range { row < length shard.now.rows }
    ensures tree { OnOk result (decoded shard.now ready.now tree.new
        ≡ gathered shard.now.rows agg.now (row_of shard.now.rows row ∷ []) (decoded shard.now ready.now tree.old)) }
    ensures cost { OnOk result (node_cost (decoded shard.now ready.now tree.new)
        ≡ node_cost (decoded shard.now ready.now tree.old)) }
{
    take_one(&agg.kind, shard, row, &mut tree.level)?;
    Ok(())
}

// The values of one more row in the metrics of a bucket.
fn take_in_children(
    aggs: &List<Agg>,
    ready: &List<Ready>,
    shard: &Shard,
    row: u32,
    children: &mut Vec<Tree>,
) -> Result<(), AllocError>
    requires metrics { IsTrue (list_all (λ a. is_metric (out-Agg a).kind) aggs.now) }
    requires in_range { row < length shard.now.rows }
    ensures trees { OnOk result (shown_children shard.now ready.now children.new.items
        ≡ gathered_children (gatherers shard.now aggs.now) (row_of shard.now.rows row ∷ [])
        (shown_children shard.now ready.now children.old.items)) }
    ensures cost { OnOk result (sum_by node_cost (shown_children shard.now ready.now children.new.items)
        ≡ sum_by node_cost (shown_children shard.now ready.now children.old.items)) }
{
    for place in 0..aggs.len() {
        if place >= ready.len() {
            return Err(AllocError);
        }
        if place >= children.len() {
            return Err(AllocError);
        }
        take_in_tree(
            &aggs.as_slice()[place],
            &ready.as_slice()[place],
            shard,
            row,
            &mut children[place],
        )?;
    }
    Ok(())
}

// One more row in a bucket.
fn take_in_bucket(
    aggs: &List<Agg>,
    ready: &List<Ready>,
    shard: &Shard,
    row: u32,
    bucket: &mut Growing,
) -> Result<(), AllocError>
    requires metrics { IsTrue (list_all (λ a. is_metric (out-Agg a).kind) aggs.now) }
    requires in_range { row < length shard.now.rows }
    ensures bucket { OnOk result (HasGathered (gatherers shard.now aggs.now) (row_of shard.now.rows row ∷ [])
        (decoders shard.now ready.now) bucket.old bucket.new) }
    ensures cost { OnOk result (sum_by node_cost (shown_children shard.now ready.now bucket.new.children.items)
        ≡ sum_by node_cost (shown_children shard.now ready.now bucket.old.children.items)) }
{
    bucket.count = sum(bucket.count, 1)?;
    take_in_children(aggs, ready, shard, row, &mut bucket.children)?;
    Ok(())
}

// One more row in the bucket that exists from the start under this number, whose cost stays.
fn put_one_fixed(
    agg: &Agg,
    ready: &Ready,
    shard: &Shard,
    row: u32,
    code: i64,
    buckets: &mut Vec<Growing>,
) -> Result<(), AllocError>
    requires metrics { IsTrue (list_all (λ a. is_metric (out-Agg a).kind) (out-Agg agg.now).children) }
    requires fixed { HasFixedKeys shard.now (out-Ready ready.now).kind }
    requires in_range { row < length shard.now.rows }
    ensures buckets { OnOk result (shown_fixed shard.now ready.now buckets.new.items
        ≡ put_rows (gatherers shard.now (out-Agg agg.now).children) (row_of shard.now.rows row ∷ [])
        (key_at shard.now ready.now code)
        (shown_fixed shard.now ready.now buckets.old.items)) }
    ensures cost { OnOk result (sum_by bytes (shown_fixed shard.now ready.now buckets.new.items)
        ≡ sum_by bytes (shown_fixed shard.now ready.now buckets.old.items)) }
{
    let place = place_of(code)?;
    if place >= buckets.len() {
        return Err(AllocError);
    }
    take_in_bucket(
        &agg.children,
        &ready.children,
        shard,
        row,
        &mut buckets[place],
    )?;
    Ok(())
}

/// A row goes into its buckets at once: none waits.
impl TakesRow<()> for Level {
    ghost shown = { λ shard a r level waiting. shown_level shard r level };

    ghost IsFit = { λ shard level waiting. Unit {0} };

    ghost Stays = { IsGrown };

    fn put(
        &mut self,
        agg: &Agg,
        ready: &Ready,
        shard: &Shard,
        row: u32,
        code: i64,
        _waiting: &mut (),
    ) -> Result<u64, AllocError> {
        match self {
            Level::Measured(measured) => {
                let more = put_one_measured(agg, ready, shard, row, code, measured)?;
                Ok(more)
            }
            Level::Counts(counts) => {
                let more = put_one_counted(agg, ready, shard, code, counts)?;
                Ok(more)
            }
            Level::Fixed(buckets) => {
                if !has_fixed_keys(&ready.kind) {
                    return Err(AllocError);
                }
                put_one_fixed(agg, ready, shard, row, code, buckets)?;
                Ok(0)
            }
            Level::Keyed(_) | Level::Number(_) => Err(AllocError),
        }
    }

    ghost stays_none = { grown-none };

    ghost stays_more = { grown-more };
}

/// More rows in the buckets of their keys, row by row, which needs no groups: metrics take the rows of a bucket one after another
/// as they take them at once. A reverse nested aggregation would not, since one row may lie around several of them.
pub(crate) fn put_in_turn(
    alloc: Global,
    agg: &Agg,
    ready: &Ready,
    shard: &Shard,
    rows: &[u32],
    spare: &mut Vec<Vec<i64>>,
    level: &mut Level,
) -> Result<u64, AllocError>
    requires ready { IsReadyFor shard.now agg.now ready.now }
    requires keyed { IsTrue (is_keyed (out-Ready ready.now).kind) }
    requires metrics { IsTrue (list_all (λ a. is_metric (out-Agg a).kind) (out-Agg agg.now).children) }
    requires built { IsShard shard.now }
    requires in_range { All (λ n. n < length shard.now.rows) rows.now }
    requires aligned { IsAligned level.old }
    ensures buckets { OnOk result (shown_level shard.now ready.now level.new
        ≡ gathered_buckets shard.now.rows (gatherers shard.now (out-Agg agg.now).children) (out-Agg agg.now).kind
        (rows_at shard.now rows.now) (shown_level shard.now ready.now level.old)) }
    ensures cost { IfOk result (λ added. sum_by bytes (shown_level shard.now ready.now level.new)
        ≡ sum_by bytes (shown_level shard.now ready.now level.old) + added) }
    ensures form { OnOk result (IsAlike level.old level.new) }
    ensures aligned { IsAligned level.new }
{
    let mut added = 0;
    for row in rows {
        let more = put_alone(alloc, agg, ready, shard, *row, spare, level, &mut ())?;
        added = sum(added, more)?;
    }
    Ok(added)
}
