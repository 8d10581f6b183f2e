//! The trees of a task, which grow root by root, in blocks of roots.
ghost use Rattle.std.specs.Prelude.{◌≡◌, ◌+◌, ◌<◌, All, IfOk, OnOk, Some, length, map, replicate, slice_get, slice_index, sum_by, ℕ};
ghost use Rattle.agg_evaluation.specs.Cost.{cost as cost_of};
ghost use Rattle.agg_evaluation.specs.Counted.{IsApart};
ghost use Rattle.agg_evaluation.specs.Rows.{row_of};
ghost use Rattle.agg_evaluation.specs.Shard.{shard_answer};
ghost use Rattle.agg_evaluation.specs.Trace.{built};
ghost use Rattle.agg_evaluation.specs.Whole.{empty_node};
ghost use Rattle.agg_model.specs.declared.aggregation.Agg.{Agg as AnyAgg};
ghost use Rattle.agg_model.specs.declared.partial.Node.{Node as AnyNode};
ghost use Rattle.collect_tree.specs.Blocks.{AreChanges, AreCosts, IsBlock, before_root};
ghost use Rattle.collect_tree.specs.Grown.{HasGrown};
ghost use Rattle.collect_tree.specs.Phases.{HasFewKeys, with_one};
ghost use Rattle.collect_tree.specs.Room.{HasCeiling};
ghost use Rattle.collect_tree.specs.Tops.{AreNodes, AreTopsFor, cut_tops, top_cost};
ghost use Rattle.growing_tree.specs.GatheredEach.{after_each, cost_after};
ghost use Rattle.growth_laws.specs.Amounts.{row_count};
ghost use Rattle.shard_columns.specs.Built.{IsShard};
ghost use Rattle.shard_columns.specs.Made.{IsAggFor, IsSearchFor};

use crate::phase::Phase;
use crate::top_tree::{TopTree, begin, collect, finish};
use agg_model::{Agg, List, Node, Search};
use growing_tree::TableRoom;
use shard_columns::Shard;
use std::alloc::{AllocError, Global};

/// The trees of a task so far.
#[derive(Drop)]
pub(crate) struct Growth {
    pub(crate) alloc: Global,
    /// One for each aggregation at the top.
    trees: Vec<TopTree>,
    /// What the trees cost together.
    pub(crate) bytes: u64,
    /// Memory for lists of codes that is used again.
    spare: Vec<Vec<i64>>,
}

/// The trees over no root.
fn begin_trees(alloc: Global, shard: &Shard, aggs: &List<Agg>) -> Result<Vec<TopTree>, AllocError>
    requires built { IsShard shard.now }
    requires made { All (IsAggFor shard.now) aggs.now }
    ensures ready { IfOk result (λ trees. AreTopsFor shard.now aggs.now trees.items) }
    ensures nodes { IfOk result (λ trees. AreNodes shard.now aggs.now (λ place a. empty_node a) trees.items) }
{
    let mut room = TableRoom::new();
    let mut trees = Vec::new(alloc);
    for place in 0..aggs.len() {
        let tree = begin(alloc, shard, &aggs.as_slice()[place], &mut room)?;
        trees.push(tree)?;
    }
    Ok(trees)
}

/// The roots of a block in each of the trees that collect them. What they add to the cost of all trees, and what they take from
/// it, is added to the numbers of each root.
fn collect_in_all(
    alloc: Global,
    phase: Phase,
    aggs: &List<Agg>,
    shard: &Shard,
    rows: &[u32],
    spare: &mut Vec<Vec<i64>>,
    trees: &mut Vec<TopTree>,
    added: &mut Vec<u64>,
    removed: &mut Vec<u64>,
) -> Result<(), AllocError>
    requires built { IsShard shard.now }
    requires apart { IsApart shard.now.rows }
    requires in_range { All (λ n. n < length shard.now.rows) rows.now }
    requires few { (place : ℕ) (agg : AnyAgg) → slice_get aggs.now place ≡ Some agg → (n : ℕ) → n < length rows.now →
        HasFewKeys phase shard.now.rows agg (row_of shard.now.rows (slice_index rows.now n)) }
    requires ready { AreTopsFor shard.now aggs.now trees.old.items }
    ensures ready { OnOk result (AreTopsFor shard.now aggs.now trees.new.items) }
    ensures nodes { OnOk result ((before : AnyAgg → AnyNode) →
        AreNodes shard.now aggs.now (λ place a. before a) trees.old.items →
        AreNodes shard.now aggs.now
        (λ place a. after_each (with_one phase shard.now.rows a) (map (row_of shard.now.rows) rows.now) (before a)) trees.new.items) }
    ensures changes { OnOk result ((before : AnyAgg → AnyNode) →
        AreNodes shard.now aggs.now (λ place a. before a) trees.old.items →
        AreChanges (λ n. sum_by
        (λ a. cost_after (with_one phase shard.now.rows a) (map (row_of shard.now.rows) rows.now) (before a) n) aggs.now)
        (length rows.now) added.old.items removed.old.items added.new.items removed.new.items) }
{
    for place in 0..aggs.len() {
        let agg = &aggs.as_slice()[place];
        collect(
            alloc,
            phase,
            agg,
            shard,
            rows,
            spare,
            &mut trees[place],
            added,
            removed,
        )?;
    }
    Ok(())
}

fn zeros(alloc: Global, count: usize) -> Result<Vec<u64>, AllocError>
    ensures { IfOk result (λ list. list.items ≡ replicate count 0) }
{
    let list = vec![in alloc; 0; count]?;
    Ok(list)
}

/// Puts the costs after each root in the place of what it adds. `cost` is the one before them, and the answer is the last one.
fn add_up(cost: u64, added: &mut Vec<u64>, removed: &[u64]) -> Result<u64, AllocError>
    requires many { length removed.now ≡ length added.old.items }
    ensures many { OnOk result (length added.new.items ≡ length added.old.items) }
    ensures costs { OnOk result ((cost_at : ℕ → ℕ) → cost ≡ cost_at 0 →
        ((n : ℕ) → n < length added.old.items →
        cost_at n + slice_index added.old.items n ≡ slice_index removed.now n + cost_at (n + 1)) →
        (n : ℕ) → n < length added.old.items → slice_index added.new.items n ≡ cost_at (n + 1)) }
    ensures last { IfOk result (λ last. (cost_at : ℕ → ℕ) → cost ≡ cost_at 0 →
        ((n : ℕ) → n < length added.old.items →
        cost_at n + slice_index added.old.items n ≡ slice_index removed.now n + cost_at (n + 1)) →
        last ≡ cost_at (length added.old.items)) }
{
    let mut cost = cost;
    for place in 0..added.len() {
        let more = changed(cost, added[place], removed[place])?;
        added[place] = more;
        cost = more;
    }
    Ok(cost)
}

/// A cost to which is added, and from which is taken; one that is below 0 then, or above 64 bits before, counts as want of
/// memory.
fn changed(cost: u64, added: u64, removed: u64) -> Result<u64, AllocError>
    ensures { IfOk result (λ after. removed + after ≡ cost + added) }
{
    let more = cost.checked_add(added).ok_or(AllocError)?;
    let after = more.checked_sub(removed).ok_or(AllocError)?;
    Ok(after)
}

/// What the shard answers to the aggregations, all of whose roots are in the trees.
fn finish_trees(
    alloc: Global,
    aggs: &List<Agg>,
    shard: &Shard,
    trees: Vec<TopTree>,
) -> Result<List<Node>, AllocError>
    requires built { IsShard shard.now }
    requires ready { AreTopsFor shard.now aggs.now trees.items }
    ensures { IfOk result (λ nodes. nodes ≡ cut_tops shard.now aggs.now trees.items) }
{
    let mut nodes = List::new(alloc);
    let mut left = trees.into_iter();
    for place in 0..aggs.len() {
        let Some(top) = left.next() else {
            return Ok(nodes);
        };
        let node = finish(alloc, &aggs.as_slice()[place], shard, top)?;
        nodes.push(node)?;
    }
    Ok(nodes)
}

impl Growth {
    /// The trees over no root, which cost so many bytes. The search is made for the mapping of the shard.
    pub(crate) fn begin(
        alloc: Global,
        shard: &Shard,
        search: &Search,
        bytes: u64,
    ) -> Result<Growth, AllocError>
        requires made { IsSearchFor shard.now search.now }
        requires bytes { bytes ≡ cost_of (built search.now shard.now.rows 0) }
        ensures { IfOk result (HasGrown shard.now search.now 0) }
    {
        let trees = begin_trees(alloc, shard, &search.aggs)?;
        Ok(Growth {
            alloc,
            trees,
            bytes,
            spare: Vec::new(alloc),
        })
    }

    /// The trees with the roots of a block, which are those of a phase from the `first` on. The answer is what they cost after
    /// each. After want of memory they are spent.
    pub(crate) fn collect(
        &mut self,
        shard: &Shard,
        search: &Search,
        phase: Phase,
        first: u64,
        rows: &[u32],
    ) -> Result<Vec<u64>, AllocError>
        requires made { IsSearchFor shard.now search.now }
        requires ceiling { HasCeiling shard.now search.now }
        requires block { IsBlock shard.now search.now phase first rows.now }
        requires grown { HasGrown shard.now search.now (before_root search.now shard.now.rows phase first) self.old }
        ensures grown { OnOk result
            (HasGrown shard.now search.now (before_root search.now shard.now.rows phase first + length rows.now) self.new) }
        ensures costs { IfOk result (λ costs. AreCosts search.now shard.now.rows (before_root search.now shard.now.rows phase first)
            (length rows.now) costs.items) }
    {
        let mut costs = zeros(self.alloc, rows.len())?;
        let mut removed = zeros(self.alloc, rows.len())?;
        collect_in_all(
            self.alloc,
            phase,
            &search.aggs,
            shard,
            rows,
            &mut self.spare,
            &mut self.trees,
            &mut costs,
            &mut removed,
        )?;
        self.bytes = add_up(self.bytes, &mut costs, removed.as_slice())?;
        Ok(costs)
    }

    /// What the shard answers to the aggregations of the search, all of whose roots are collected.
    pub(crate) fn finish(self, shard: &Shard, search: &Search) -> Result<List<Node>, AllocError>
        requires made { IsSearchFor shard.now search.now }
        requires grown { HasGrown shard.now search.now (row_count search.now shard.now.rows) self }
        ensures { IfOk result (λ nodes. nodes ≡ (shard_answer search.now shard.now.rows).nodes) }
    {
        let Growth {
            alloc,
            trees,
            bytes: _,
            spare: _,
        } = self;
        finish_trees(alloc, &search.aggs, shard, trees)
    }
}
