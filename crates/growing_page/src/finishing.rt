//! A page that has all its rows, as what a shard answers.
ghost use Rattle.std.specs.Prelude.{◌≡◌, IfOk, IsTrue, map};
ghost use Rattle.agg_model.specs.declared.aggregation.Agg.{out-Agg};
ghost use Rattle.agg_evaluation.specs.Folds.{fold_agg};
ghost use Rattle.composite_agg.specs.FirstPages.{is_composite};
ghost use Rattle.growing_tree.specs.Readiness.{AreReadyFor};
ghost use Rattle.growth_laws.specs.Cutting.{cut_bucket, cut_tree, cutter_at};
ghost use Rattle.shard_columns.specs.Built.{IsShard};
ghost use Rattle.growing_tree.specs.Gathered.{decoders};
ghost use Rattle.growing_page.specs.GrowingPages.{page_node, shown, shown_all};

use crate::page::{Held, Page};
use agg_model::{Agg, Bucket, List, Node};
use bucket_order::sort_by_key;
use composite_agg::runs::join;
use growing_tree::{Ready, finish_children};
use shard_columns::Shard;
use std::alloc::{AllocError, Global};

fn finish_bucket(
    alloc: Global,
    aggs: &List<Agg>,
    ready: &List<Ready>,
    shard: &Shard,
    bucket: Held,
) -> Result<Bucket, AllocError>
    requires ready { AreReadyFor shard.now aggs.now ready.now }
    requires built { IsShard shard.now }
    ensures { IfOk result (λ b. b ≡ cut_bucket (map (fold_agg cutter_at) aggs.now) (shown (decoders shard.now ready.now) bucket)) }
{
    let Held {
        key,
        count,
        children,
        bytes: _,
        code: _,
    } = bucket;
    Ok(Bucket {
        key,
        count,
        covered: 0,
        children: finish_children(alloc, aggs, ready, shard, children)?,
    })
}

fn finish_buckets(
    alloc: Global,
    aggs: &List<Agg>,
    ready: &List<Ready>,
    shard: &Shard,
    buckets: Vec<Held>,
) -> Result<Vec<Bucket>, AllocError>
    requires ready { AreReadyFor shard.now aggs.now ready.now }
    requires built { IsShard shard.now }
    ensures { IfOk result (λ bs. bs.items ≡ map (cut_bucket (map (fold_agg cutter_at) aggs.now)) (shown_all (decoders shard.now ready.now) buckets.items)) }
{
    let mut finished = Vec::new(alloc);
    for bucket in buckets {
        finished.push(finish_bucket(alloc, aggs, ready, shard, bucket)?)?;
    }
    Ok(finished)
}

/// What a shard answers to a composite whose rows are all in the page: its buckets ascending by key, and below them the terms of
/// each level cut to the shard size. It takes time n log n for n buckets, beside what their children take.
pub fn finish_page(
    alloc: Global,
    agg: &Agg,
    ready: &List<Ready>,
    shard: &Shard,
    page: Page,
) -> Result<Node, AllocError>
    requires ready { AreReadyFor shard.now (out-Agg agg.now).children ready.now }
    requires built { IsShard shard.now }
    requires composite { IsTrue (is_composite (out-Agg agg.now).kind) }
    ensures { IfOk result (λ node. node ≡ cut_tree agg.now (page_node (decoders shard.now ready.now) page)) }
{
    let Page {
        held: _,
        runs,
        lasts: _,
        guesses: _,
    } = page;
    let buckets = join(alloc, runs)?;
    let mut finished = finish_buckets(alloc, &agg.children, ready, shard, buckets)?;
    sort_by_key(&mut finished)?;
    Ok(Node::Keyed {
        buckets: List::from_vec(finished),
        error: 0,
        full: 0,
        cut: 0,
    })
}
