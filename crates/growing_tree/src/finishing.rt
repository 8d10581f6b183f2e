//! Trees that have all their rows, as what a shard answers.
ghost use Rattle.std.specs.Prelude.{◌≡◌, ◌≤◌, IfOk, List as AnyList, OnOk, map, sum_by};
ghost use Rattle.agg_model.specs.declared.aggregation.Agg.{out-Agg};
ghost use Rattle.agg_model.specs.declared.key.Key.TheVariants.{Fixed as FixedKey};
ghost use Rattle.agg_model.specs.declared.partial.Bucket.{Bucket as AnyBucket};
ghost use Rattle.agg_model.specs.declared.partial.Node.TheVariants.{Keyed as KeyedNode};
ghost use Rattle.agg_evaluation.specs.Folds.{fold_agg};
ghost use Rattle.agg_evaluation.specs.Orders.{bucket_count, bucket_key};
ghost use Rattle.agg_evaluation.specs.Shard.{sorted_by_key};
ghost use Rattle.shard_columns.specs.Built.{IsShard};
ghost use Rattle.terms_agg.specs.Trim.{trimmed_some};
ghost use Rattle.growth_laws.specs.Cutting.{cut_children, cut_tree, cutter_at};
ghost use Rattle.growing_tree.specs.Codes.{code_key, fixed_key as fixed_key_of};
ghost use Rattle.growing_tree.specs.Decoded.{decoded, decoded_children};
ghost use Rattle.growing_tree.specs.Finished.{finished_bucket, finished_with};
ghost use Rattle.growing_tree.specs.Readiness.{AreReadyFor, IsKindReady, IsReadyFor};
ghost use Rattle.growing_tree.specs.CodedBuckets.{coded_bucket};
ghost use Rattle.growing_tree.specs.Frequent.{IsChosen};
ghost use Rattle.growing_tree.specs.Grouped.{AreApart};
ghost use Rattle.growing_tree.specs.Trees.{numbered_buckets};
ghost use Rattle.growing_tree.specs.declared.ready.Ready.{out-Ready};

use crate::chosen::{Chosen, choose, choose_counted, choose_measured};
use crate::coded::{Coded, sort_by_code};
use crate::kinds::{is_terms, place_of};
use crate::ready::{Ready, ReadyKind};
use crate::tree::{Growing, Level, Tree};
use agg_model::{Agg, Bucket, Key, Kind, List, Node};
use bucket_order::sort_by_key;
use date_agg::key as key_of_period;
use histogram_agg::key as key_of_interval;
use shard_columns::Shard;
use std::alloc::{AllocError, Global};
use terms_agg::{has_key, key as key_of_term, trim_some};

// The key of the bucket at a place among those that exist from the start.
fn key_at(place: usize) -> Result<Key, AllocError>
    ensures { IfOk result (λ k. k ≡ FixedKey place) }
{
    let number = u32::try_from(place).map_err(|_| AllocError)?;
    Ok(Key::Fixed(number))
}

// The same of a code. Less than 0 there is no place.
fn fixed_key(code: i64) -> Result<Key, AllocError>
    ensures { IfOk result (λ k. k ≡ fixed_key_of code) }
{
    let place = place_of(code)?;
    key_at(place)
}

// The key that a code stands for. A number that is no code of the shard is answered as want of memory.
fn key_of_code(
    alloc: Global,
    shard: &Shard,
    kind: &Kind,
    ready: &ReadyKind,
    code: i64,
) -> Result<Key, AllocError>
    requires ready { IsKindReady shard.now kind.now ready.now }
    ensures { IfOk result (λ k. k ≡ code_key shard.now ready.now code) }
{
    match ready {
        ReadyKind::Single | ReadyKind::Metric | ReadyKind::Filters(_) | ReadyKind::Composite => {
            fixed_key(code)
        }
        ReadyKind::Histogram(histogram) => Ok(key_of_interval(histogram, code)),
        ReadyKind::DateHistogram(dates) => Ok(key_of_period(dates, code)),
        ReadyKind::Terms(terms) => {
            if !has_key(shard, terms, code) {
                return Err(AllocError);
            }
            key_of_term(alloc, shard, terms, code)
        }
    }
}

// Buckets of a level, as what a shard answers, where all the level's buckets have `total` rows together.
fn finish_level(
    alloc: Global,
    agg: &Agg,
    total: u64,
    buckets: Vec<Bucket>,
) -> Result<Node, AllocError>
    requires { sum_by bucket_count buckets.items ≤ total }
    ensures { IfOk result (λ node. node ≡ trimmed_some agg.now total (sorted_by_key buckets.items)) }
{
    let mut ascending = buckets;
    sort_by_key(&mut ascending)?;
    trim_some(alloc, agg, total, ascending)
}

/// The same of trees side by side, the children of one bucket.
#[cycle(finish)]
pub fn finish_children(
    alloc: Global,
    aggs: &List<Agg>,
    ready: &List<Ready>,
    shard: &Shard,
    trees: Vec<Tree>,
) -> Result<List<Node>, AllocError>
    requires ready { AreReadyFor shard.now aggs.now ready.now }
    requires built { IsShard shard.now }
    ensures nodes { IfOk result (λ nodes. nodes ≡ cut_children (map (fold_agg cutter_at) aggs.now) (decoded_children (map (decoded shard.now) ready.now) trees.items)) }
{
    if ready.len() != aggs.len() || trees.len() != aggs.len() {
        return Err(AllocError);
    }
    let mut nodes = List::new(alloc);
    let mut left = trees.into_iter();
    for place in 0..aggs.len() {
        let Some(tree) = left.next() else {
            return Err(AllocError);
        };
        let node = finish(
            alloc,
            &aggs.as_slice()[place],
            &ready.as_slice()[place],
            shard,
            tree,
        )?;
        nodes.push(node)?;
    }
    Ok(nodes)
}

// A bucket with this key.
#[cycle(finish)]
fn finish_bucket(
    alloc: Global,
    agg: &Agg,
    ready: &Ready,
    shard: &Shard,
    key: Key,
    bucket: Growing,
) -> Result<Bucket, AllocError>
    requires ready { IsReadyFor shard.now agg.now ready.now }
    requires built { IsShard shard.now }
    ensures { IfOk result (λ b. b ≡ finished_with shard.now agg.now ready.now key bucket) }
{
    let Growing { count, children } = bucket;
    Ok(Bucket {
        key,
        count,
        covered: 0,
        children: finish_children(alloc, &agg.children, &ready.children, shard, children)?,
    })
}

// The buckets of codes, in this order.
#[cycle(finish)]
fn finish_coded(
    alloc: Global,
    agg: &Agg,
    ready: &Ready,
    shard: &Shard,
    buckets: Vec<Coded>,
) -> Result<Vec<Bucket>, AllocError>
    requires ready { IsReadyFor shard.now agg.now ready.now }
    requires built { IsShard shard.now }
    ensures { IfOk result (λ bs. bs.items ≡ map (finished_bucket shard.now agg.now ready.now) (map coded_bucket buckets.items)) }
{
    let mut finished = Vec::with_capacity(alloc, buckets.len())?;
    for coded in buckets {
        let Coded { code, bucket } = coded;
        let key = key_of_code(alloc, shard, &agg.kind, &ready.kind, code)?;
        finished.push(finish_bucket(alloc, agg, ready, shard, key, bucket)?)?;
    }
    Ok(finished)
}

// The buckets that exist from the start.
#[cycle(finish)]
fn finish_fixed(
    alloc: Global,
    agg: &Agg,
    ready: &Ready,
    shard: &Shard,
    buckets: Vec<Growing>,
) -> Result<List<Bucket>, AllocError>
    requires ready { IsReadyFor shard.now agg.now ready.now }
    requires built { IsShard shard.now }
    ensures { IfOk result (λ bs. bs ≡ map (finished_bucket shard.now agg.now ready.now) (numbered_buckets 0 buckets.items)) }
{
    let mut finished = List::new(alloc);
    for bucket in buckets {
        let key = key_at(finished.len())?;
        finished.push(finish_bucket(alloc, agg, ready, shard, key, bucket)?)?;
    }
    Ok(finished)
}

// The buckets of keys that rows bring, `all` of them, of which these are chosen.
#[cycle(finish)]
fn finish_chosen(
    alloc: Global,
    agg: &Agg,
    ready: &Ready,
    shard: &Shard,
    chosen: Chosen,
) -> Result<Node, AllocError>
    requires ready { IsReadyFor shard.now agg.now ready.now }
    requires built { IsShard shard.now }
    requires within { sum_by (λ c. c.bucket.count) chosen.coded.items ≤ chosen.total }
    ensures node { (all : AnyList AnyBucket) → IsChosen (out-Agg agg.now).kind all chosen → AreApart (map bucket_key (map (finished_bucket shard.now agg.now ready.now) all)) →
        IfOk result (λ node. node ≡ cut_tree agg.now (decoded shard.now ready.now (KeyedNode all 0 0 0))) }
{
    let Chosen { total, mut coded } = chosen;
    // Codes ascend as their keys do, but for that of a word for missing values, and are compared at once: a sort by key finds next
    // to nothing to do.
    sort_by_code(&agg.kind, &mut coded)?;
    let buckets = finish_coded(alloc, agg, ready, shard, coded)?;
    if is_terms(&agg.kind) {
        return trim_some(alloc, agg, total, buckets);
    }
    finish_level(alloc, agg, total, buckets)
}

/// What a shard answers to an aggregation whose rows are all in the tree: keys for codes, ascending by key, and the terms of each
/// level cut to the shard size, the lowest first. Everything is moved. It takes time by the buckets, times the logarithm of those
/// of a level, and by the counters of trees whose terms have them from the start.
///
/// `AllocError` says that memory is wanted, or that the tree is of another aggregation: at some level it has not so many
/// children, a number that is no code of the shard, or counts that together have more than 64 bits.
#[cycle(finish)]
pub fn finish(
    alloc: Global,
    agg: &Agg,
    ready: &Ready,
    shard: &Shard,
    tree: Tree,
) -> Result<Node, AllocError>
    requires ready { IsReadyFor shard.now agg.now ready.now }
    requires built { IsShard shard.now }
    ensures node { IfOk result (λ node. node ≡ cut_tree agg.now (decoded shard.now ready.now tree)) }
{
    let Tree { level } = tree;
    match level {
        Level::Keyed(keyed) => {
            let chosen = choose(alloc, &agg.kind, keyed)?;
            finish_chosen(alloc, agg, ready, shard, chosen)
        }
        Level::Measured(measured) => {
            let chosen = choose_measured(alloc, &agg.kind, measured)?;
            finish_chosen(alloc, agg, ready, shard, chosen)
        }
        Level::Counts(counts) => {
            let chosen = choose_counted(alloc, &agg.kind, &counts)?;
            finish_chosen(alloc, agg, ready, shard, chosen)
        }
        Level::Fixed(buckets) => Ok(Node::Fixed {
            buckets: finish_fixed(alloc, agg, ready, shard, buckets)?,
        }),
        Level::Number(taken) => Ok(Node::Number(taken.metric())),
    }
}
