//! Rows that go into a tree one after another, each alone, with what each adds to its cost.
ghost use Rattle.std.specs.Prelude.{◌≡◌, ◌<◌, ◌≤◌, ℕ, All, IsTrue, OnOk, length};
ghost use Rattle.std.specs.List.{list_all};
ghost use Rattle.agg_model.specs.declared.aggregation.Agg.{out-Agg};
ghost use Rattle.agg_evaluation.specs.Cost.{node_cost};
ghost use Rattle.agg_evaluation.specs.Counted.{IsApart};
ghost use Rattle.shard_columns.specs.Built.{IsShard};
ghost use Rattle.growth_laws.specs.Gathering.{gathered};
ghost use Rattle.growing_tree.specs.Decoded.{decoded};
ghost use Rattle.growing_tree.specs.Gathered.{gatherers, rows_at, shown_level};
ghost use Rattle.growing_tree.specs.GatheredEach.{AreRises, after_each, bytes_after, cost_after, counted_one, gathered_one, put_at_keys};
ghost use Rattle.growing_tree.specs.Readiness.{IsReadyFor, is_keyed as is_keyed_kind, is_metric};
ghost use Rattle.growing_tree.specs.Shown.{IsAlike};
ghost use Rattle.growing_tree.specs.Steady.{IsSteady};
ghost use Rattle.growing_tree.specs.Trees.{IsAligned};
ghost use Rattle.growing_tree.specs.declared.ready.Ready.{out-Ready};

use crate::at_codes::put_each_alone;
use crate::beneath_roots::{are_few_beneath, are_simple, gather_beneath};
use crate::gathering::{count, gather, put_row};
use crate::kinds::{are_metrics, has_buckets, is_keyed};
use crate::lone_rows::take_in_tree;
use crate::placing::put_block;
use crate::ready::{Ready, ReadyKind};
use crate::sums::sum;
use crate::tree::{Level, Tree};
use agg_model::{Agg, Kind};
use shard_columns::Shard;
use std::alloc::{AllocError, Global};

// More rows in the buckets of their keys, one after another.
fn put_each(
    alloc: Global,
    agg: &Agg,
    ready: &Ready,
    shard: &Shard,
    rows: &[u32],
    metrics: bool,
    spare: &mut Vec<Vec<i64>>,
    level: &mut Level,
    added: &mut Vec<u64>,
) -> Result<(), AllocError>
    requires ready { IsReadyFor shard.now agg.now ready.now }
    requires metrics { IsTrue metrics → IsTrue (list_all (λ a. is_metric (out-Agg a).kind) (out-Agg agg.now).children) }
    requires built { IsShard shard.now }
    requires apart { IsApart shard.now.rows }
    requires in_range { All (λ n. n < length shard.now.rows) rows.now }
    requires many { length added.old.items ≡ length rows.now }
    ensures buckets { OnOk result (shown_level shard.now ready.now level.new ≡ after_each
        (put_at_keys shard.now.rows (gatherers shard.now (out-Agg agg.now).children) (out-Agg agg.now).kind)
        (rows_at shard.now rows.now) (shown_level shard.now ready.now level.old)) }
    ensures rises { OnOk result (AreRises (bytes_after
        (put_at_keys shard.now.rows (gatherers shard.now (out-Agg agg.now).children) (out-Agg agg.now).kind)
        (rows_at shard.now rows.now) (shown_level shard.now ready.now level.old))
        (length rows.now) added.old.items added.new.items) }
    ensures form { OnOk result (IsAlike level.old level.new) }
    ensures aligned { IsAligned level.old → IsAligned level.new }
{
    if let Level::Measured(measured) = level {
        if !metrics {
            return Err(AllocError);
        }
        return put_block(alloc, agg, ready, shard, rows, spare, measured, added);
    }
    if metrics {
        return put_each_alone(alloc, agg, ready, shard, rows, spare, level, &mut (), added);
    }
    for place in 0..rows.len() {
        let one = [rows[place]];
        let more = put_row(alloc, agg, ready, shard, one.as_slice(), spare, level)?;
        let next = sum(added[place], more)?;
        added[place] = next;
    }
    Ok(())
}

/// The same in a tree. Above metrics alone it takes rows in steps as at once.
pub(crate) fn put_each_in_tree(
    alloc: Global,
    agg: &Agg,
    ready: &Ready,
    shard: &Shard,
    rows: &[u32],
    metrics: bool,
    spare: &mut Vec<Vec<i64>>,
    tree: &mut Tree,
    added: &mut Vec<u64>,
) -> Result<(), AllocError>
    requires ready { IsReadyFor shard.now agg.now ready.now }
    requires keyed { IsTrue (is_keyed_kind (out-Ready ready.now).kind) }
    requires metrics { IsTrue metrics → IsTrue (list_all (λ a. is_metric (out-Agg a).kind) (out-Agg agg.now).children) }
    requires built { IsShard shard.now }
    requires apart { IsApart shard.now.rows }
    requires in_range { All (λ n. n < length shard.now.rows) rows.now }
    requires many { length added.old.items ≡ length rows.now }
    ensures tree { OnOk result (decoded shard.now ready.now tree.new
        ≡ after_each (gathered_one shard.now.rows agg.now) (rows_at shard.now rows.now) (decoded shard.now ready.now tree.old)) }
    ensures rises { OnOk result (AreRises
        (cost_after (gathered_one shard.now.rows agg.now) (rows_at shard.now rows.now) (decoded shard.now ready.now tree.old))
        (length rows.now) added.old.items added.new.items) }
    ensures steady { IsTrue metrics → OnOk result (IsSteady (gathered shard.now.rows agg.now) (decoded shard.now ready.now tree.old)) }
{
    if !has_buckets(&tree.level) {
        return Err(AllocError);
    }
    put_each(
        alloc,
        agg,
        ready,
        shard,
        rows,
        metrics,
        spare,
        &mut tree.level,
        added,
    )?;
    Ok(())
}

/// The values of more rows in the tree of a metric, one after another: it costs what it did after each.
pub(crate) fn take_each(
    agg: &Agg,
    ready: &Ready,
    shard: &Shard,
    rows: &[u32],
    tree: &mut Tree,
) -> Result<(), AllocError>
    requires metric { IsTrue (is_metric (out-Agg agg.now).kind) }
    requires in_range { All (λ n. n < length shard.now.rows) rows.now }
    ensures tree { OnOk result (decoded shard.now ready.now tree.new
        ≡ after_each (gathered_one shard.now.rows agg.now) (rows_at shard.now rows.now) (decoded shard.now ready.now tree.old)) }
    ensures cost { OnOk result ((n : ℕ) → n ≤ length rows.now →
        cost_after (gathered_one shard.now.rows agg.now) (rows_at shard.now rows.now) (decoded shard.now ready.now tree.old) n
        ≡ node_cost (decoded shard.now ready.now tree.old)) }
{
    for place in 0..rows.len() {
        take_in_tree(agg, ready, shard, rows[place], tree)?;
    }
    Ok(())
}

// More rows in a tree of any kind, one after another.
fn gather_in_turn(
    alloc: Global,
    agg: &Agg,
    ready: &Ready,
    shard: &Shard,
    rows: &[u32],
    spare: &mut Vec<Vec<i64>>,
    tree: &mut Tree,
    added: &mut Vec<u64>,
) -> Result<(), AllocError>
    requires ready { IsReadyFor shard.now agg.now ready.now }
    requires built { IsShard shard.now }
    requires apart { IsApart shard.now.rows }
    requires in_range { All (λ n. n < length shard.now.rows) rows.now }
    requires many { length added.old.items ≡ length rows.now }
    ensures tree { OnOk result (decoded shard.now ready.now tree.new
        ≡ after_each (gathered_one shard.now.rows agg.now) (rows_at shard.now rows.now) (decoded shard.now ready.now tree.old)) }
    ensures rises { OnOk result (AreRises
        (cost_after (gathered_one shard.now.rows agg.now) (rows_at shard.now rows.now) (decoded shard.now ready.now tree.old))
        (length rows.now) added.old.items added.new.items) }
{
    for place in 0..rows.len() {
        let one = [rows[place]];
        let more = gather(alloc, agg, ready, shard, one.as_slice(), spare, tree)?;
        let next = sum(added[place], more)?;
        added[place] = next;
    }
    Ok(())
}

// More rows that the aggregation counts in its tree, one after another.
fn count_in_turn(
    alloc: Global,
    agg: &Agg,
    ready: &Ready,
    shard: &Shard,
    rows: &[u32],
    spare: &mut Vec<Vec<i64>>,
    tree: &mut Tree,
    added: &mut Vec<u64>,
) -> Result<(), AllocError>
    requires ready { IsReadyFor shard.now agg.now ready.now }
    requires built { IsShard shard.now }
    requires apart { IsApart shard.now.rows }
    requires in_range { All (λ n. n < length shard.now.rows) rows.now }
    requires many { length added.old.items ≡ length rows.now }
    ensures tree { OnOk result (decoded shard.now ready.now tree.new
        ≡ after_each (counted_one shard.now.rows agg.now) (rows_at shard.now rows.now) (decoded shard.now ready.now tree.old)) }
    ensures rises { OnOk result (AreRises
        (cost_after (counted_one shard.now.rows agg.now) (rows_at shard.now rows.now) (decoded shard.now ready.now tree.old))
        (length rows.now) added.old.items added.new.items) }
{
    for place in 0..rows.len() {
        let one = [rows[place]];
        let more = count(alloc, agg, ready, shard, one.as_slice(), spare, tree)?;
        let next = sum(added[place], more)?;
        added[place] = next;
    }
    Ok(())
}

/// Puts rows that the aggregation is handed into its tree, one after another, each alone, and adds to the number of each by how
/// many bytes the cost of the tree rose at it: there is one number for each row. Where the children of the aggregation are metrics,
/// or it has none, a row takes no list and no call that calls itself. Where those of a nested aggregation are metrics, or have keys
/// above metrics alone, the rows beneath all that it is handed take one list.
///
/// Lists of codes, errors and time as in `gather`; more or fewer numbers than rows are answered as want of memory too. After an
/// error nothing is said of the numbers either.
pub fn gather_each(
    alloc: Global,
    agg: &Agg,
    ready: &Ready,
    shard: &Shard,
    rows: &[u32],
    spare: &mut Vec<Vec<i64>>,
    tree: &mut Tree,
    added: &mut Vec<u64>,
) -> Result<(), AllocError>
    requires ready { IsReadyFor shard.now agg.now ready.now }
    requires built { IsShard shard.now }
    requires apart { IsApart shard.now.rows }
    requires in_range { All (λ n. n < length shard.now.rows) rows.now }
    ensures tree { OnOk result (decoded shard.now ready.now tree.new
        ≡ after_each (gathered_one shard.now.rows agg.now) (rows_at shard.now rows.now) (decoded shard.now ready.now tree.old)) }
    ensures rises { OnOk result (AreRises
        (cost_after (gathered_one shard.now.rows agg.now) (rows_at shard.now rows.now) (decoded shard.now ready.now tree.old))
        (length rows.now) added.old.items added.new.items) }
{
    if added.len() != rows.len() {
        return Err(AllocError);
    }
    match &ready.kind {
        ReadyKind::Metric => {
            take_each(agg, ready, shard, rows, tree)?;
            Ok(())
        }
        ReadyKind::Single
        | ReadyKind::Terms(_)
        | ReadyKind::Filters(_)
        | ReadyKind::Histogram(_)
        | ReadyKind::DateHistogram(_)
        | ReadyKind::Composite => {
            if is_keyed(&ready.kind) {
                let metrics = are_metrics(&agg.children);
                put_each_in_tree(alloc, agg, ready, shard, rows, metrics, spare, tree, added)?;
                return Ok(());
            }
            if let Kind::Nested { context } = &agg.kind {
                if *context != 0
                    && are_simple(&agg.children, &ready.children)
                    && are_few_beneath(shard, *context - 1, rows)
                {
                    let path = *context - 1;
                    gather_beneath(alloc, agg, ready, shard, path, rows, spare, tree, added)?;
                    return Ok(());
                }
            }
            gather_in_turn(alloc, agg, ready, shard, rows, spare, tree, added)?;
            Ok(())
        }
    }
}

/// Puts rows that the aggregation counts into its tree, one after another, each alone, and adds to the number of each by how many
/// bytes the cost of the tree rose at it, as the rows of the whole shard go into the tree of a global aggregation. Lists of codes,
/// errors and time as in `gather_each`.
pub fn count_each(
    alloc: Global,
    agg: &Agg,
    ready: &Ready,
    shard: &Shard,
    rows: &[u32],
    spare: &mut Vec<Vec<i64>>,
    tree: &mut Tree,
    added: &mut Vec<u64>,
) -> Result<(), AllocError>
    requires ready { IsReadyFor shard.now agg.now ready.now }
    requires built { IsShard shard.now }
    requires apart { IsApart shard.now.rows }
    requires in_range { All (λ n. n < length shard.now.rows) rows.now }
    ensures tree { OnOk result (decoded shard.now ready.now tree.new
        ≡ after_each (counted_one shard.now.rows agg.now) (rows_at shard.now rows.now) (decoded shard.now ready.now tree.old)) }
    ensures rises { OnOk result (AreRises
        (cost_after (counted_one shard.now.rows agg.now) (rows_at shard.now rows.now) (decoded shard.now ready.now tree.old))
        (length rows.now) added.old.items added.new.items) }
{
    if added.len() != rows.len() {
        return Err(AllocError);
    }
    count_in_turn(alloc, agg, ready, shard, rows, spare, tree, added)?;
    Ok(())
}
