//! Rows that go one after another into the tree of a nested aggregation: all that lie beneath them go into its one bucket
//! together, where the trees below take rows in steps as at once.
ghost use Rattle.std.specs.Prelude.{◌≡◌, ◌<◌, ◌+◌, ℕ, All, IfOk, IsTrue, OnOk, length, replicate};
ghost use Rattle.agg_model.specs.declared.aggregation.Agg.{out-Agg};
ghost use Rattle.agg_model.specs.declared.aggregation.Kind.TheVariants.{Nested as NestedKind};
ghost use Rattle.agg_evaluation.specs.Counted.{IsApart};
ghost use Rattle.nested_agg.specs.Ends.{AreEnds};
ghost use Rattle.shard_columns.specs.Built.{IsShard};
ghost use Rattle.growth_laws.specs.Gathering.{gathered};
ghost use Rattle.growing_tree.specs.Decoded.{decoded};
ghost use Rattle.growing_tree.specs.Gathered.{decoders, gatherers, rows_at, shown_children};
ghost use Rattle.growing_tree.specs.GatheredEach.{AreRises, after_each, cost_after, gathered_one};
ghost use Rattle.growing_tree.specs.Readiness.{AreReadyFor, IsReadyFor};
ghost use Rattle.growing_tree.specs.Shown.{HasGathered};
ghost use Rattle.growing_tree.specs.LoneBuckets.{GrowsAlone};
ghost use Rattle.growing_tree.specs.SideBySide.{AreCharges, side_by_side, side_cost};
ghost use Rattle.growing_tree.specs.Steady.{AreSimple, AreSteady, IsSteady, is_simple as is_simple_agg};
ghost use Rattle.growing_tree.specs.Trees.{IsAligned, level_node};
ghost use Rattle.growing_tree.specs.declared.ready.Ready.{out-Ready};

use crate::in_turn::{put_each_in_tree, take_each};
use crate::kinds::are_metrics;
use crate::ready::{Ready, ReadyKind};
use crate::sums::sum;
use crate::tree::{Growing, Level, Tree};
use agg_model::{Agg, List};
use nested_agg::beneath_each;
use shard_columns::Shard;
use std::alloc::{AllocError, Global};

// So many rows at most go in together: while they do, each takes up to 28 bytes, and each row above them 8, that no breaker counts.
const MOST_TOGETHER: usize = 65_536;

// Whether the tree of the aggregation takes rows in steps as at once: a metric does, and keys with metrics below.
fn is_simple(agg: &Agg, ready: &Ready) -> bool
    ensures { result ≡ is_simple_agg agg.now ready.now }
{
    match &ready.kind {
        ReadyKind::Metric => true,
        ReadyKind::Terms(_)
        | ReadyKind::Filters(_)
        | ReadyKind::Histogram(_)
        | ReadyKind::DateHistogram(_) => are_metrics(&agg.children),
        ReadyKind::Single | ReadyKind::Composite => false,
    }
}

/// Whether the trees of all of the aggregations take rows in steps as at once.
pub(crate) fn are_simple(aggs: &List<Agg>, ready: &List<Ready>) -> bool
    ensures { IsTrue result → AreSimple aggs.now ready.now }
{
    for place in 0..aggs.len() {
        if place >= ready.len() {
            return false;
        }
        if !is_simple(&aggs.as_slice()[place], &ready.as_slice()[place]) {
            return false;
        }
    }
    true
}

/// Whether few rows lie beneath these, where they ascend: beneath all but the last are at most those among them. A wrong answer
/// costs time or memory alone.
pub(crate) fn are_few_beneath(shard: &Shard, path: u32, rows: &[u32]) -> bool
    requires { All (λ n. n < length shard.now.rows) rows.now }
{
    match rows {
        [] => true,
        [last] => shard.children(*last, path).len() <= MOST_TOGETHER,
        [first, .., last] => {
            let among = last.saturating_sub(*first) as usize;
            among.saturating_add(shard.children(*last, path).len()) <= MOST_TOGETHER
        }
    }
}

// More rows in such a tree, one after another.
fn gather_simple(
    alloc: Global,
    agg: &Agg,
    ready: &Ready,
    shard: &Shard,
    rows: &[u32],
    spare: &mut Vec<Vec<i64>>,
    tree: &mut Tree,
    added: &mut Vec<u64>,
) -> Result<(), AllocError>
    requires ready { IsReadyFor shard.now agg.now ready.now }
    requires simple { IsTrue (is_simple_agg agg.now ready.now) }
    requires built { IsShard shard.now }
    requires apart { IsApart shard.now.rows }
    requires in_range { All (λ n. n < length shard.now.rows) rows.now }
    requires many { length added.old.items ≡ length rows.now }
    ensures tree { OnOk result (decoded shard.now ready.now tree.new
        ≡ after_each (gathered_one shard.now.rows agg.now) (rows_at shard.now rows.now) (decoded shard.now ready.now tree.old)) }
    ensures rises { OnOk result (AreRises
        (cost_after (gathered_one shard.now.rows agg.now) (rows_at shard.now rows.now) (decoded shard.now ready.now tree.old))
        (length rows.now) added.old.items added.new.items) }
    ensures steady { OnOk result (IsSteady (gathered shard.now.rows agg.now) (decoded shard.now ready.now tree.old)) }
{
    match &ready.kind {
        ReadyKind::Metric => {
            take_each(agg, ready, shard, rows, tree)?;
            Ok(())
        }
        ReadyKind::Single
        | ReadyKind::Terms(_)
        | ReadyKind::Filters(_)
        | ReadyKind::Histogram(_)
        | ReadyKind::DateHistogram(_)
        | ReadyKind::Composite => {
            put_each_in_tree(alloc, agg, ready, shard, rows, true, spare, tree, added)?;
            Ok(())
        }
    }
}

// More rows in trees side by side, one row after another.
fn gather_all_simple(
    alloc: Global,
    aggs: &List<Agg>,
    ready: &List<Ready>,
    shard: &Shard,
    rows: &[u32],
    spare: &mut Vec<Vec<i64>>,
    children: &mut Vec<Tree>,
    added: &mut Vec<u64>,
) -> Result<(), AllocError>
    requires ready { AreReadyFor shard.now aggs.now ready.now }
    requires simple { AreSimple aggs.now ready.now }
    requires built { IsShard shard.now }
    requires apart { IsApart shard.now.rows }
    requires in_range { All (λ n. n < length shard.now.rows) rows.now }
    requires many { length added.old.items ≡ length rows.now }
    ensures trees { OnOk result (shown_children shard.now ready.now children.new.items
        ≡ after_each (side_by_side (gatherers shard.now aggs.now)) (rows_at shard.now rows.now)
        (shown_children shard.now ready.now children.old.items)) }
    ensures rises { OnOk result (AreRises
        (side_cost (gatherers shard.now aggs.now) (rows_at shard.now rows.now) (shown_children shard.now ready.now children.old.items))
        (length rows.now) added.old.items added.new.items) }
    ensures steady { OnOk result (AreSteady (gatherers shard.now aggs.now) (shown_children shard.now ready.now children.old.items)) }
{
    for place in 0..aggs.len() {
        if place >= ready.len() {
            return Err(AllocError);
        }
        if place >= children.len() {
            return Err(AllocError);
        }
        gather_simple(
            alloc,
            &aggs.as_slice()[place],
            &ready.as_slice()[place],
            shard,
            rows,
            spare,
            &mut children[place],
            added,
        )?;
    }
    Ok(())
}

// More rows in a bucket, one after another.
fn gather_in_bucket(
    alloc: Global,
    aggs: &List<Agg>,
    ready: &List<Ready>,
    shard: &Shard,
    rows: &[u32],
    spare: &mut Vec<Vec<i64>>,
    bucket: &mut Growing,
    added: &mut Vec<u64>,
) -> Result<(), AllocError>
    requires ready { AreReadyFor shard.now aggs.now ready.now }
    requires simple { AreSimple aggs.now ready.now }
    requires built { IsShard shard.now }
    requires apart { IsApart shard.now.rows }
    requires in_range { All (λ n. n < length shard.now.rows) rows.now }
    requires many { length added.old.items ≡ length rows.now }
    ensures bucket { OnOk result (HasGathered (gatherers shard.now aggs.now) (rows_at shard.now rows.now)
        (decoders shard.now ready.now) bucket.old bucket.new) }
    ensures rises { OnOk result (AreRises
        (side_cost (gatherers shard.now aggs.now) (rows_at shard.now rows.now) (shown_children shard.now ready.now bucket.old.children.items))
        (length rows.now) added.old.items added.new.items) }
    ensures steady { OnOk result (AreSteady (gatherers shard.now aggs.now) (shown_children shard.now ready.now bucket.old.children.items)) }
{
    bucket.count = sum(bucket.count, rows.len() as u64)?;
    gather_all_simple(
        alloc,
        aggs,
        ready,
        shard,
        rows,
        spare,
        &mut bucket.children,
        added,
    )?;
    Ok(())
}

// More rows in the one bucket of a level, one after another.
fn gather_in_level(
    alloc: Global,
    agg: &Agg,
    ready: &Ready,
    shard: &Shard,
    rows: &[u32],
    spare: &mut Vec<Vec<i64>>,
    level: &mut Level,
    added: &mut Vec<u64>,
) -> Result<(), AllocError>
    requires ready { IsReadyFor shard.now agg.now ready.now }
    requires simple { AreSimple (out-Agg agg.now).children (out-Ready ready.now).children }
    requires built { IsShard shard.now }
    requires apart { IsApart shard.now.rows }
    requires in_range { All (λ n. n < length shard.now.rows) rows.now }
    requires many { length added.old.items ≡ length rows.now }
    ensures level { OnOk result (GrowsAlone (gatherers shard.now (out-Agg agg.now).children) (rows_at shard.now rows.now)
        (decoded shard.now ready.now (level_node level.old)) (decoded shard.now ready.now (level_node level.new))
        added.old.items added.new.items) }
    ensures aligned { IsAligned level.old → IsAligned level.new }
{
    match level {
        Level::Fixed(buckets) => {
            if buckets.len() != 1 {
                return Err(AllocError);
            }
            gather_in_bucket(
                alloc,
                &agg.children,
                &ready.children,
                shard,
                rows,
                spare,
                &mut buckets[0],
                added,
            )?;
            Ok(())
        }
        Level::Keyed(_) | Level::Measured(_) | Level::Counts(_) | Level::Number(_) => {
            Err(AllocError)
        }
    }
}

// The sum of the amounts of rows that lie one after another.
fn total(amounts: &[u64], start: usize, end: usize) -> Result<u64, AllocError>
    ensures { IfOk result (λ total. (cost_at : ℕ → ℕ) → AreCharges cost_at amounts.now → cost_at end ≡ cost_at start + total) }
{
    if start > end {
        return Err(AllocError);
    }
    let mut total = 0;
    for place in start..end {
        if place >= amounts.len() {
            return Err(AllocError);
        }
        total = sum(total, amounts[place])?;
    }
    Ok(total)
}

// Adds to each number the amounts of a part of the list, which begins where the part before it ends.
fn share_out(ends: &[usize], amounts: &[u64], added: &mut Vec<u64>) -> Result<(), AllocError>
    requires many { length added.old.items ≡ length ends.now }
    ensures rises { OnOk result ((cost_at end_of : ℕ → ℕ) → AreCharges cost_at amounts.now → AreEnds end_of ends.now →
        AreRises (λ n. cost_at (end_of n)) (length ends.now) added.old.items added.new.items) }
{
    let mut start: usize = 0;
    for place in 0..ends.len() {
        let end = ends[place];
        let more = total(amounts, start, end)?;
        let next = sum(added[place], more)?;
        added[place] = next;
        start = end;
    }
    Ok(())
}

fn zeros(alloc: Global, count: usize) -> Result<Vec<u64>, AllocError>
    ensures { IfOk result (λ list. list.items ≡ replicate count 0) }
{
    let list = vec![in alloc; 0; count]?;
    Ok(list)
}

/// Puts rows that a nested aggregation is handed into its tree, one after another, each alone, and adds to the number of each by
/// how many bytes the cost of the tree rose at it. The rows beneath them are put into one list, once for all.
pub(crate) fn gather_beneath(
    alloc: Global,
    agg: &Agg,
    ready: &Ready,
    shard: &Shard,
    path: u32,
    rows: &[u32],
    spare: &mut Vec<Vec<i64>>,
    tree: &mut Tree,
    added: &mut Vec<u64>,
) -> Result<(), AllocError>
    requires ready { IsReadyFor shard.now agg.now ready.now }
    requires nested { (out-Agg agg.now).kind ≡ NestedKind (path + 1) }
    requires simple { AreSimple (out-Agg agg.now).children (out-Ready ready.now).children }
    requires built { IsShard shard.now }
    requires apart { IsApart shard.now.rows }
    requires in_range { All (λ n. n < length shard.now.rows) rows.now }
    requires many { length added.old.items ≡ length rows.now }
    ensures tree { OnOk result (decoded shard.now ready.now tree.new
        ≡ after_each (gathered_one shard.now.rows agg.now) (rows_at shard.now rows.now) (decoded shard.now ready.now tree.old)) }
    ensures rises { OnOk result (AreRises
        (cost_after (gathered_one shard.now.rows agg.now) (rows_at shard.now rows.now) (decoded shard.now ready.now tree.old))
        (length rows.now) added.old.items added.new.items) }
{
    let inner = beneath_each(alloc, shard, path, rows)?;
    let mut amounts = zeros(alloc, inner.rows.len())?;
    gather_in_level(
        alloc,
        agg,
        ready,
        shard,
        inner.rows.as_slice(),
        spare,
        &mut tree.level,
        &mut amounts,
    )?;
    share_out(inner.ends.as_slice(), amounts.as_slice(), added)?;
    Ok(())
}
