//! The tree of one aggregation at the top of a search.
ghost use Rattle.std.specs.Prelude.{◌≡◌, ◌+◌, ◌<◌, ℕ, All, IfOk, IsTrue, List as AnyList, OnOk, length, map, slice_index};
ghost use Rattle.agg_evaluation.specs.Counted.{IsApart};
ghost use Rattle.agg_evaluation.specs.Rows.{row_of};
ghost use Rattle.agg_evaluation.specs.Whole.{empty_node};
ghost use Rattle.agg_model.specs.declared.aggregation.Agg.{out-Agg};
ghost use Rattle.collect_tree.specs.Blocks.{AreChanges};
ghost use Rattle.collect_tree.specs.Phases.{HasFewKeys, with_one};
ghost use Rattle.collect_tree.specs.declared.phase.Phase.TheVariants.{Matched};
ghost use Rattle.collect_tree.specs.Tops.{IsPageFor, IsTopFor, top_node};
ghost use Rattle.composite_agg.specs.FirstPages.{is_composite as is_composite_kind};
ghost use Rattle.growing_page.specs.GrowingPages.{decoders, page_node};
ghost use Rattle.growing_tree.specs.Decoded.{decoded};
ghost use Rattle.growing_tree.specs.GatheredEach.{after_each, cost_after};
ghost use Rattle.growing_tree.specs.Readiness.{IsReadyFor};
ghost use Rattle.growth_laws.specs.Cutting.{cut_tree};
ghost use Rattle.shard_columns.specs.Built.{IsShard};
ghost use Rattle.shard_columns.specs.Made.{IsAggFor};

use crate::phase::{Phase, is_composite, is_global};
use agg_model::{Agg, List, Node};
use growing_page::{Page, finish_page, gather_root};
use growing_tree::{Ready, TableRoom, Tree, count_each, gather_each};
use shard_columns::Shard;
use std::alloc::{AllocError, Global};

/// The tree of an aggregation at the top of a search while roots are collected, with what it needs of the shard.
#[derive(Drop)]
pub(crate) enum TopTree {
    /// Of an aggregation that keeps all its buckets.
    Tree { ready: Ready, tree: Tree },
    /// Of a composite aggregation, which keeps a page of them. Its children are prepared.
    Page { children: List<Ready>, page: Page },
}

/// The page of a composite aggregation over no root.
fn begin_page(alloc: Global, shard: &Shard, agg: &Agg) -> Result<TopTree, AllocError>
    requires built { IsShard shard.now }
    requires made { IsAggFor shard.now agg.now }
    requires composite { IsTrue (is_composite_kind (out-Agg agg.now).kind) }
    ensures ready { IfOk result (IsTopFor shard.now agg.now) }
    ensures node { IfOk result (λ top. top_node shard.now top ≡ empty_node agg.now) }
{
    let children = growing_tree::prepare_all(alloc, shard, &agg.children)?;
    let page = Page::begin(alloc, &agg.kind)?;
    Ok(TopTree::Page { children, page })
}

/// The tree over no root, whose tables take room of the task's.
pub(crate) fn begin(
    alloc: Global,
    shard: &Shard,
    agg: &Agg,
    room: &mut TableRoom,
) -> Result<TopTree, AllocError>
    requires built { IsShard shard.now }
    requires made { IsAggFor shard.now agg.now }
    ensures ready { IfOk result (IsTopFor shard.now agg.now) }
    ensures node { IfOk result (λ top. top_node shard.now top ≡ empty_node agg.now) }
{
    if is_composite(&agg.kind) {
        let top = begin_page(alloc, shard, agg)?;
        return Ok(top);
    }
    let ready = growing_tree::prepare(alloc, shard, agg, room)?;
    let tree = growing_tree::begin(alloc, agg, &ready)?;
    Ok(TopTree::Tree { ready, tree })
}

/// The tree with more roots, one after another, if the aggregation collects roots in this phase. What each adds to its cost is
/// added to the root's number.
fn collect_in_tree(
    alloc: Global,
    phase: Phase,
    agg: &Agg,
    shard: &Shard,
    rows: &[u32],
    spare: &mut Vec<Vec<i64>>,
    ready: &Ready,
    tree: &mut Tree,
    added: &mut Vec<u64>,
) -> Result<(), AllocError>
    requires ready { IsReadyFor shard.now agg.now ready.now }
    requires built { IsShard shard.now }
    requires apart { IsApart shard.now.rows }
    requires in_range { All (λ n. n < length shard.now.rows) rows.now }
    ensures node { OnOk result (decoded shard.now ready.now tree.new
        ≡ after_each (with_one phase shard.now.rows agg.now) (map (row_of shard.now.rows) rows.now)
        (decoded shard.now ready.now tree.old)) }
    ensures changes { OnOk result ((removed : AnyList ℕ) → AreChanges
        (cost_after (with_one phase shard.now.rows agg.now) (map (row_of shard.now.rows) rows.now)
        (decoded shard.now ready.now tree.old))
        (length rows.now) added.old.items removed added.new.items removed) }
{
    let global = is_global(&agg.kind);
    match phase {
        Phase::Matched => {
            if global {
                return Ok(());
            }
            gather_each(alloc, agg, ready, shard, rows, spare, tree, added)?;
            Ok(())
        }
        Phase::Global => {
            if !global {
                return Ok(());
            }
            count_each(alloc, agg, ready, shard, rows, spare, tree, added)?;
            Ok(())
        }
    }
}

/// The page with more roots, one after another. What each adds to its cost is added to the root's one number, and what it takes
/// from it to the other.
fn gather_in_page(
    alloc: Global,
    agg: &Agg,
    shard: &Shard,
    rows: &[u32],
    spare: &mut Vec<Vec<i64>>,
    children: &List<Ready>,
    page: &mut Page,
    added: &mut Vec<u64>,
    removed: &mut Vec<u64>,
) -> Result<(), AllocError>
    requires page { IsPageFor shard.now agg.now children.now page.old }
    requires built { IsShard shard.now }
    requires apart { IsApart shard.now.rows }
    requires in_range { All (λ n. n < length shard.now.rows) rows.now }
    requires few { (n : ℕ) → n < length rows.now →
        HasFewKeys Matched shard.now.rows agg.now (row_of shard.now.rows (slice_index rows.now n)) }
    requires many_added { length added.old.items ≡ length rows.now }
    requires many_removed { length removed.old.items ≡ length rows.now }
    ensures page { OnOk result (IsPageFor shard.now agg.now children.now page.new) }
    ensures node { OnOk result (page_node (decoders shard.now children.now) page.new
        ≡ after_each (with_one Matched shard.now.rows agg.now) (map (row_of shard.now.rows) rows.now)
        (page_node (decoders shard.now children.now) page.old)) }
    ensures changes { OnOk result (AreChanges
        (cost_after (with_one Matched shard.now.rows agg.now) (map (row_of shard.now.rows) rows.now)
        (page_node (decoders shard.now children.now) page.old))
        (length rows.now) added.old.items removed.old.items added.new.items removed.new.items) }
{
    for place in 0..rows.len() {
        let change = gather_root(alloc, agg, children, shard, rows[place], spare, page)?;
        let more_added = sum(added[place], change.added)?;
        added[place] = more_added;
        let more_removed = sum(removed[place], change.removed)?;
        removed[place] = more_removed;
    }
    Ok(())
}

/// The page with more roots, one after another, if they are matched ones.
fn collect_in_page(
    alloc: Global,
    phase: Phase,
    agg: &Agg,
    shard: &Shard,
    rows: &[u32],
    spare: &mut Vec<Vec<i64>>,
    children: &List<Ready>,
    page: &mut Page,
    added: &mut Vec<u64>,
    removed: &mut Vec<u64>,
) -> Result<(), AllocError>
    requires page { IsPageFor shard.now agg.now children.now page.old }
    requires built { IsShard shard.now }
    requires apart { IsApart shard.now.rows }
    requires in_range { All (λ n. n < length shard.now.rows) rows.now }
    requires few { (n : ℕ) → n < length rows.now →
        HasFewKeys phase shard.now.rows agg.now (row_of shard.now.rows (slice_index rows.now n)) }
    ensures page { OnOk result (IsPageFor shard.now agg.now children.now page.new) }
    ensures node { OnOk result (page_node (decoders shard.now children.now) page.new
        ≡ after_each (with_one phase shard.now.rows agg.now) (map (row_of shard.now.rows) rows.now)
        (page_node (decoders shard.now children.now) page.old)) }
    ensures changes { OnOk result (AreChanges
        (cost_after (with_one phase shard.now.rows agg.now) (map (row_of shard.now.rows) rows.now)
        (page_node (decoders shard.now children.now) page.old))
        (length rows.now) added.old.items removed.old.items added.new.items removed.new.items) }
{
    if added.len() != rows.len() {
        return Err(AllocError);
    }
    if removed.len() != rows.len() {
        return Err(AllocError);
    }
    match phase {
        Phase::Matched => {
            gather_in_page(
                alloc, agg, shard, rows, spare, children, page, added, removed,
            )?;
            Ok(())
        }
        Phase::Global => Ok(()),
    }
}

/// The tree with more roots, one after another, if the aggregation collects roots in this phase. What each adds to its cost is
/// added to the root's one number, and what it takes from it to the other.
pub(crate) fn collect(
    alloc: Global,
    phase: Phase,
    agg: &Agg,
    shard: &Shard,
    rows: &[u32],
    spare: &mut Vec<Vec<i64>>,
    top: &mut TopTree,
    added: &mut Vec<u64>,
    removed: &mut Vec<u64>,
) -> Result<(), AllocError>
    requires ready { IsTopFor shard.now agg.now top.old }
    requires built { IsShard shard.now }
    requires apart { IsApart shard.now.rows }
    requires in_range { All (λ n. n < length shard.now.rows) rows.now }
    requires few { (n : ℕ) → n < length rows.now →
        HasFewKeys phase shard.now.rows agg.now (row_of shard.now.rows (slice_index rows.now n)) }
    ensures ready { OnOk result (IsTopFor shard.now agg.now top.new) }
    ensures node { OnOk result (top_node shard.now top.new
        ≡ after_each (with_one phase shard.now.rows agg.now) (map (row_of shard.now.rows) rows.now) (top_node shard.now top.old)) }
    ensures changes { OnOk result (AreChanges
        (cost_after (with_one phase shard.now.rows agg.now) (map (row_of shard.now.rows) rows.now) (top_node shard.now top.old))
        (length rows.now) added.old.items removed.old.items added.new.items removed.new.items) }
{
    match top {
        TopTree::Tree { ready, tree } => {
            collect_in_tree(alloc, phase, agg, shard, rows, spare, ready, tree, added)?;
            Ok(())
        }
        TopTree::Page { children, page } => {
            collect_in_page(
                alloc, phase, agg, shard, rows, spare, children, page, added, removed,
            )?;
            Ok(())
        }
    }
}

/// What the shard answers to the aggregation, all of whose roots are in the tree.
pub(crate) fn finish(
    alloc: Global,
    agg: &Agg,
    shard: &Shard,
    top: TopTree,
) -> Result<Node, AllocError>
    requires ready { IsTopFor shard.now agg.now top }
    requires built { IsShard shard.now }
    ensures node { IfOk result (λ node. node ≡ cut_tree agg.now (top_node shard.now top)) }
{
    match top {
        TopTree::Tree { ready, tree } => {
            let node = growing_tree::finish(alloc, agg, &ready, shard, tree)?;
            Ok(node)
        }
        TopTree::Page { children, page } => {
            let node = finish_page(alloc, agg, &children, shard, page)?;
            Ok(node)
        }
    }
}

/// A sum of bytes; one of more than 64 bits counts as want of memory.
fn sum(bytes: u64, added: u64) -> Result<u64, AllocError>
    ensures { IfOk result (λ s. s ≡ bytes + added) }
{
    bytes.checked_add(added).ok_or(AllocError)
}
