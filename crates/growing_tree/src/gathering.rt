//! More rows in a tree: those that an aggregation counts go into the buckets of their keys, and in each bucket into the trees
//! of the aggregations below.
ghost use Rattle.std.specs.Prelude.{◌≡◌, ◌<◌, ◌+◌, ◌∷◌, [], All, IfOk, IsTrue, List as AnyList, OnOk, length, map, sum_by};
ghost use Rattle.agg_model.specs.declared.key.Key.{Key};
ghost use Rattle.agg_model.specs.declared.aggregation.Agg.{out-Agg};
ghost use Rattle.agg_evaluation.specs.Cost.{node_cost};
ghost use Rattle.agg_evaluation.specs.Counted.{IsApart};
ghost use Rattle.agg_evaluation.specs.Keys.{keys};
ghost use Rattle.agg_evaluation.specs.Rows.{PlacedRow};
ghost use Rattle.evaluation_laws.proofs.CostLaws.{bytes};
ghost use Rattle.shard_columns.specs.Built.{IsShard};
ghost use Rattle.growth_laws.specs.Gathering.{counted, gathered, gathered_buckets, gathered_children, put_rows};
ghost use Rattle.growing_tree.specs.Codes.{HasFixedKeys};
ghost use Rattle.growing_tree.specs.Decoded.{decoded};
ghost use Rattle.growing_tree.specs.Gathered.{decoders, gatherers, key_at, rows_at, shown_children, shown_fixed, shown_keyed, shown_level};
ghost use Rattle.growing_tree.specs.Readiness.{AreReadyFor, IsReadyFor, is_keyed, is_metric};
ghost use Rattle.growing_tree.specs.Shown.{HasGathered, IsAlike, put_all};
ghost use Rattle.growing_tree.specs.Trees.{IsAligned, IsIndexed};
ghost use Rattle.growing_tree.specs.declared.ready.Ready.{out-Ready};

use crate::beginning::{begin_bucket, bucket_bytes};
use crate::groups::{Groups, group_rows};
use crate::kinds::{
    are_metrics, ascend, has_buckets, has_fixed_keys, lone_code, place_of, row_codes, take_rows,
};
use crate::lone_rows::put_in_turn;
use crate::ready::{Ready, ReadyKind};
use crate::sums::sum;
use crate::tree::{Growing, Level, Tree};
use agg_model::{Agg, Kind, List};
use bucket_places::{Place, Places};
use nested_agg::{rows_around, rows_beneath};
use shard_columns::Shard;
use std::alloc::{AllocError, Global};

// More rows in the tree of a metric, which costs what it did.
fn gather_values(
    agg: &Agg,
    ready: &Ready,
    shard: &Shard,
    rows: &[u32],
    tree: &mut Tree,
) -> Result<(), AllocError>
    requires metric { IsTrue (is_metric (out-Agg agg.now).kind) }
    requires in_range { All (λ n. n < length shard.now.rows) rows.now }
    ensures tree { OnOk result (decoded shard.now ready.now tree.new
        ≡ gathered shard.now.rows agg.now (rows_at shard.now rows.now) (decoded shard.now ready.now tree.old)) }
    ensures cost { OnOk result (node_cost (decoded shard.now ready.now tree.new)
        ≡ node_cost (decoded shard.now ready.now tree.old)) }
{
    take_rows(&agg.kind, shard, rows, &mut tree.level)?;
    Ok(())
}

// More rows in the tree of one of the children of a bucket. A metric takes their values at once.
#[cycle(gather)]
fn gather_child(
    alloc: Global,
    agg: &Agg,
    ready: &Ready,
    shard: &Shard,
    rows: &[u32],
    spare: &mut Vec<Vec<i64>>,
    tree: &mut Tree,
) -> Result<u64, AllocError>
    requires ready { IsReadyFor shard.now agg.now ready.now }
    requires built { IsShard shard.now }
    requires apart { IsApart shard.now.rows }
    requires in_range { All (λ n. n < length shard.now.rows) rows.now }
    ensures tree { OnOk result (decoded shard.now ready.now tree.new
        ≡ gathered shard.now.rows agg.now (rows_at shard.now rows.now) (decoded shard.now ready.now tree.old)) }
    ensures cost { IfOk result (λ added. node_cost (decoded shard.now ready.now tree.new)
        ≡ node_cost (decoded shard.now ready.now tree.old) + added) }
{
    match &ready.kind {
        ReadyKind::Metric => {
            gather_values(agg, ready, shard, rows, tree)?;
            Ok(0)
        }
        ReadyKind::Single
        | ReadyKind::Terms(_)
        | ReadyKind::Filters(_)
        | ReadyKind::Histogram(_)
        | ReadyKind::DateHistogram(_)
        | ReadyKind::Composite => {
            let more = gather(alloc, agg, ready, shard, rows, spare, tree)?;
            Ok(more)
        }
    }
}

/// Puts more rows into each of the trees side by side, which are those of these aggregations: the children of one bucket. The
/// answer is by how many bytes their cost rose. Lists of codes, errors and time as in `gather`.
#[cycle(gather)]
pub fn gather_children(
    alloc: Global,
    aggs: &List<Agg>,
    ready: &List<Ready>,
    shard: &Shard,
    rows: &[u32],
    spare: &mut Vec<Vec<i64>>,
    children: &mut Vec<Tree>,
) -> Result<u64, AllocError>
    requires ready { AreReadyFor shard.now aggs.now ready.now }
    requires built { IsShard shard.now }
    requires apart { IsApart shard.now.rows }
    requires in_range { All (λ n. n < length shard.now.rows) rows.now }
    ensures trees { OnOk result (shown_children shard.now ready.now children.new.items
        ≡ gathered_children (gatherers shard.now aggs.now) (rows_at shard.now rows.now)
        (shown_children shard.now ready.now children.old.items)) }
    ensures cost { IfOk result (λ added. sum_by node_cost (shown_children shard.now ready.now children.new.items)
        ≡ sum_by node_cost (shown_children shard.now ready.now children.old.items) + added) }
{
    let mut added = 0;
    for place in 0..aggs.len() {
        if place >= ready.len() {
            return Err(AllocError);
        }
        if place >= children.len() {
            return Err(AllocError);
        }
        let more = gather_child(
            alloc,
            &aggs.as_slice()[place],
            &ready.as_slice()[place],
            shard,
            rows,
            spare,
            &mut children[place],
        )?;
        added = sum(added, more)?;
    }
    Ok(added)
}

// More rows in a bucket.
#[cycle(gather)]
fn gather_bucket(
    alloc: Global,
    aggs: &List<Agg>,
    ready: &List<Ready>,
    shard: &Shard,
    rows: &[u32],
    spare: &mut Vec<Vec<i64>>,
    bucket: &mut Growing,
) -> Result<u64, AllocError>
    requires ready { AreReadyFor shard.now aggs.now ready.now }
    requires built { IsShard shard.now }
    requires apart { IsApart shard.now.rows }
    requires in_range { All (λ n. n < length shard.now.rows) rows.now }
    ensures bucket { OnOk result (HasGathered (gatherers shard.now aggs.now) (rows_at shard.now rows.now)
        (decoders shard.now ready.now) bucket.old bucket.new) }
    ensures cost { IfOk result (λ added. sum_by node_cost (shown_children shard.now ready.now bucket.new.children.items)
        ≡ sum_by node_cost (shown_children shard.now ready.now bucket.old.children.items) + added) }
{
    bucket.count = sum(bucket.count, rows.len() as u64)?;
    let added = gather_children(alloc, aggs, ready, shard, rows, spare, &mut bucket.children)?;
    Ok(added)
}

// More rows in the bucket of a code, among the buckets of codes.
#[cycle(gather)]
fn put_coded(
    alloc: Global,
    agg: &Agg,
    ready: &Ready,
    shard: &Shard,
    rows: &[u32],
    spare: &mut Vec<Vec<i64>>,
    code: i64,
    places: &mut Places,
    buckets: &mut Vec<Growing>,
) -> Result<u64, AllocError>
    requires ready { IsReadyFor shard.now agg.now ready.now }
    requires built { IsShard shard.now }
    requires apart { IsApart shard.now.rows }
    requires in_range { All (λ n. n < length shard.now.rows) rows.now }
    ensures buckets { OnOk result (shown_keyed shard.now ready.now places.new buckets.new.items
        ≡ put_rows (gatherers shard.now (out-Agg agg.now).children) (rows_at shard.now rows.now)
        (key_at shard.now ready.now code)
        (shown_keyed shard.now ready.now places.old buckets.old.items)) }
    ensures cost { IfOk result (λ added. sum_by bytes (shown_keyed shard.now ready.now places.new buckets.new.items)
        ≡ sum_by bytes (shown_keyed shard.now ready.now places.old buckets.old.items) + added) }
    ensures aligned { IsIndexed places.old buckets.old.items → IsIndexed places.new buckets.new.items }
{
    let found = places.find_or_add(code)?;
    match found {
        Place::Found(place) => {
            if place >= buckets.len() {
                return Err(AllocError);
            }
            let more = gather_bucket(
                alloc,
                &agg.children,
                &ready.children,
                shard,
                rows,
                spare,
                &mut buckets[place],
            )?;
            Ok(more)
        }
        Place::Added(place) => {
            if place != buckets.len() {
                return Err(AllocError);
            }
            let begun = bucket_bytes(shard, &agg.kind, ready, code)?;
            let mut bucket = begin_bucket(alloc, &agg.children, &ready.children)?;
            let more = gather_bucket(
                alloc,
                &agg.children,
                &ready.children,
                shard,
                rows,
                spare,
                &mut bucket,
            )?;
            buckets.push(bucket)?;
            let added = sum(begun, more)?;
            Ok(added)
        }
    }
}

// More rows in the bucket that exists from the start under this number.
#[cycle(gather)]
fn put_fixed(
    alloc: Global,
    agg: &Agg,
    ready: &Ready,
    shard: &Shard,
    rows: &[u32],
    spare: &mut Vec<Vec<i64>>,
    code: i64,
    buckets: &mut Vec<Growing>,
) -> Result<u64, AllocError>
    requires ready { IsReadyFor shard.now agg.now ready.now }
    requires fixed { HasFixedKeys shard.now (out-Ready ready.now).kind }
    requires built { IsShard shard.now }
    requires apart { IsApart shard.now.rows }
    requires in_range { All (λ n. n < length shard.now.rows) rows.now }
    ensures buckets { OnOk result (shown_fixed shard.now ready.now buckets.new.items
        ≡ put_rows (gatherers shard.now (out-Agg agg.now).children) (rows_at shard.now rows.now)
        (key_at shard.now ready.now code)
        (shown_fixed shard.now ready.now buckets.old.items)) }
    ensures cost { IfOk result (λ added. sum_by bytes (shown_fixed shard.now ready.now buckets.new.items)
        ≡ sum_by bytes (shown_fixed shard.now ready.now buckets.old.items) + added) }
{
    let place = place_of(code)?;
    if place >= buckets.len() {
        return Err(AllocError);
    }
    let more = gather_bucket(
        alloc,
        &agg.children,
        &ready.children,
        shard,
        rows,
        spare,
        &mut buckets[place],
    )?;
    Ok(more)
}

// More rows in the bucket of a code.
#[cycle(gather)]
fn put(
    alloc: Global,
    agg: &Agg,
    ready: &Ready,
    shard: &Shard,
    rows: &[u32],
    spare: &mut Vec<Vec<i64>>,
    code: i64,
    level: &mut Level,
) -> Result<u64, AllocError>
    requires ready { IsReadyFor shard.now agg.now ready.now }
    requires built { IsShard shard.now }
    requires apart { IsApart shard.now.rows }
    requires in_range { All (λ n. n < length shard.now.rows) rows.now }
    ensures buckets { OnOk result (shown_level shard.now ready.now level.new
        ≡ put_rows (gatherers shard.now (out-Agg agg.now).children) (rows_at shard.now rows.now)
        (key_at shard.now ready.now code)
        (shown_level shard.now ready.now level.old)) }
    ensures cost { IfOk result (λ added. sum_by bytes (shown_level shard.now ready.now level.new)
        ≡ sum_by bytes (shown_level shard.now ready.now level.old) + added) }
    ensures form { OnOk result (IsAlike level.old level.new) }
    ensures aligned { IsAligned level.old → IsAligned level.new }
{
    match level {
        Level::Keyed(keyed) => {
            let more = put_coded(
                alloc,
                agg,
                ready,
                shard,
                rows,
                spare,
                code,
                &mut keyed.places,
                &mut keyed.buckets,
            )?;
            Ok(more)
        }
        Level::Fixed(buckets) => {
            if !has_fixed_keys(&ready.kind) {
                return Err(AllocError);
            }
            let more = put_fixed(alloc, agg, ready, shard, rows, spare, code, buckets)?;
            Ok(more)
        }
        Level::Measured(_) | Level::Counts(_) | Level::Number(_) => Err(AllocError),
    }
}

// More rows in the buckets of codes, one after another.
#[cycle(gather)]
fn put_codes(
    alloc: Global,
    agg: &Agg,
    ready: &Ready,
    shard: &Shard,
    rows: &[u32],
    spare: &mut Vec<Vec<i64>>,
    codes: &[i64],
    level: &mut Level,
) -> Result<u64, AllocError>
    requires ready { IsReadyFor shard.now agg.now ready.now }
    requires built { IsShard shard.now }
    requires apart { IsApart shard.now.rows }
    requires in_range { All (λ n. n < length shard.now.rows) rows.now }
    ensures buckets { OnOk result (shown_level shard.now ready.now level.new
        ≡ put_all (λ k. rows_at shard.now rows.now) (gatherers shard.now (out-Agg agg.now).children)
        (map (key_at shard.now ready.now) codes.now)
        (shown_level shard.now ready.now level.old)) }
    ensures cost { IfOk result (λ added. sum_by bytes (shown_level shard.now ready.now level.new)
        ≡ sum_by bytes (shown_level shard.now ready.now level.old) + added) }
    ensures form { OnOk result (IsAlike level.old level.new) }
    ensures aligned { IsAligned level.old → IsAligned level.new }
{
    let mut added = 0;
    for place in 0..codes.len() {
        let more = put(alloc, agg, ready, shard, rows, spare, codes[place], level)?;
        added = sum(added, more)?;
    }
    Ok(added)
}

/// One more row, which stands alone in the list, in the buckets of its keys. The answer is by how many bytes their cost rose.
#[cycle(gather)]
pub(crate) fn put_row(
    alloc: Global,
    agg: &Agg,
    ready: &Ready,
    shard: &Shard,
    rows: &[u32],
    spare: &mut Vec<Vec<i64>>,
    level: &mut Level,
) -> Result<u64, AllocError>
    requires ready { IsReadyFor shard.now agg.now ready.now }
    requires built { IsShard shard.now }
    requires apart { IsApart shard.now.rows }
    requires alone { length rows.now ≡ 1 }
    requires in_range { All (λ n. n < length shard.now.rows) rows.now }
    ensures buckets { OnOk result ((row : PlacedRow) → rows_at shard.now rows.now ≡ row ∷ [] →
        shown_level shard.now ready.now level.new
        ≡ put_all (λ k. row ∷ []) (gatherers shard.now (out-Agg agg.now).children)
        (keys shard.now.rows (out-Agg agg.now).kind row)
        (shown_level shard.now ready.now level.old)) }
    ensures cost { IfOk result (λ added. sum_by bytes (shown_level shard.now ready.now level.new)
        ≡ sum_by bytes (shown_level shard.now ready.now level.old) + added) }
    ensures form { OnOk result (IsAlike level.old level.new) }
    ensures aligned { IsAligned level.old → IsAligned level.new }
{
    let row = rows[0];
    match lone_code(shard, &agg.kind, &ready.kind, row) {
        Some(Some(code)) => {
            let more = put(alloc, agg, ready, shard, rows, spare, code, level)?;
            Ok(more)
        }
        Some(None) => Ok(0),
        None => {
            let mut codes = spare.pop().unwrap_or(Vec::new(alloc));
            row_codes(shard, &agg.kind, &ready.kind, row, &mut codes)?;
            let more = put_codes(
                alloc,
                agg,
                ready,
                shard,
                rows,
                spare,
                codes.as_slice(),
                level,
            )?;
            spare.push(codes)?;
            Ok(more)
        }
    }
}

// The rows of groups in the buckets of their codes, one after another.
#[cycle(gather)]
fn put_groups(
    alloc: Global,
    agg: &Agg,
    ready: &Ready,
    shard: &Shard,
    groups: &Groups,
    spare: &mut Vec<Vec<i64>>,
    level: &mut Level,
) -> Result<u64, AllocError>
    requires ready { IsReadyFor shard.now agg.now ready.now }
    requires built { IsShard shard.now }
    requires apart { IsApart shard.now.rows }
    requires in_range { All (λ rows. All (λ n. n < length shard.now.rows) rows) groups.now.rows.items }
    ensures buckets { OnOk result ((rows_of : Key → AnyList PlacedRow) →
        map (rows_at shard.now) groups.now.rows.items
        ≡ map (λ c. rows_of (key_at shard.now ready.now c)) groups.now.places →
        shown_level shard.now ready.now level.new
        ≡ put_all rows_of (gatherers shard.now (out-Agg agg.now).children)
        (map (key_at shard.now ready.now) groups.now.places)
        (shown_level shard.now ready.now level.old)) }
    ensures cost { IfOk result (λ added. sum_by bytes (shown_level shard.now ready.now level.new)
        ≡ sum_by bytes (shown_level shard.now ready.now level.old) + added) }
    ensures form { OnOk result (IsAlike level.old level.new) }
    ensures aligned { IsAligned level.old → IsAligned level.new }
{
    let codes = groups.places.codes();
    let mut added = 0;
    for place in 0..codes.len() {
        if place >= groups.rows.len() {
            return Err(AllocError);
        }
        let more = put(
            alloc,
            agg,
            ready,
            shard,
            groups.rows[place].as_slice(),
            spare,
            codes[place],
            level,
        )?;
        added = sum(added, more)?;
    }
    Ok(added)
}

// More rows that the aggregation counts, in the buckets of their keys.
#[cycle(gather)]
fn count_keyed(
    alloc: Global,
    agg: &Agg,
    ready: &Ready,
    shard: &Shard,
    rows: &[u32],
    spare: &mut Vec<Vec<i64>>,
    level: &mut Level,
) -> Result<u64, AllocError>
    requires ready { IsReadyFor shard.now agg.now ready.now }
    requires keyed { IsTrue (is_keyed (out-Ready ready.now).kind) }
    requires built { IsShard shard.now }
    requires apart { IsApart shard.now.rows }
    requires in_range { All (λ n. n < length shard.now.rows) rows.now }
    requires aligned { IsAligned level.old }
    ensures buckets { OnOk result (shown_level shard.now ready.now level.new
        ≡ gathered_buckets shard.now.rows (gatherers shard.now (out-Agg agg.now).children) (out-Agg agg.now).kind
        (rows_at shard.now rows.now) (shown_level shard.now ready.now level.old)) }
    ensures cost { IfOk result (λ added. sum_by bytes (shown_level shard.now ready.now level.new)
        ≡ sum_by bytes (shown_level shard.now ready.now level.old) + added) }
    ensures form { OnOk result (IsAlike level.old level.new) }
    ensures aligned { IsAligned level.new }
{
    if are_metrics(&agg.children) {
        let more = put_in_turn(alloc, agg, ready, shard, rows, spare, level)?;
        return Ok(more);
    }
    if rows.len() == 1 {
        let added = put_row(alloc, agg, ready, shard, rows, spare, level)?;
        return Ok(added);
    }
    let groups = group_rows(
        alloc,
        shard,
        &agg.kind,
        &ready.kind,
        ready.table.width,
        rows,
    )?;
    let added = put_groups(alloc, agg, ready, shard, &groups, spare, level)?;
    Ok(added)
}

/// Puts more rows that the aggregation is handed into its tree: a nested aggregation counts the rows at its path within them, a
/// reverse nested one the rows of its context around them, and a global one, whose rows are those of the whole shard, none of
/// them. The answer is by how many bytes the cost of the tree rose. `spare` lends the levels lists for the codes of a row, so
/// that a single row takes no memory for them; what it has is no matter.
///
/// `AllocError` says that memory is wanted; that a count or a cost has more than 64 bits; that the tree or what is prepared has
/// another form than the aggregation; that a composite is among them, whose page grows elsewhere; or that rows which a reverse
/// nested aggregation is handed do not ascend, as those of a shard do. Nothing is said of the tree then. At each level it takes
/// time n log n in the keys of the rows, and for each bucket that they go into by the logarithm of the buckets.
#[cycle(gather)]
pub fn gather(
    alloc: Global,
    agg: &Agg,
    ready: &Ready,
    shard: &Shard,
    rows: &[u32],
    spare: &mut Vec<Vec<i64>>,
    tree: &mut Tree,
) -> Result<u64, AllocError>
    requires ready { IsReadyFor shard.now agg.now ready.now }
    requires built { IsShard shard.now }
    requires apart { IsApart shard.now.rows }
    requires in_range { All (λ n. n < length shard.now.rows) rows.now }
    ensures tree { OnOk result (decoded shard.now ready.now tree.new
        ≡ gathered shard.now.rows agg.now (rows_at shard.now rows.now) (decoded shard.now ready.now tree.old)) }
    ensures cost { IfOk result (λ added. node_cost (decoded shard.now ready.now tree.new)
        ≡ node_cost (decoded shard.now ready.now tree.old) + added) }
{
    match &agg.kind {
        Kind::Nested { context } => {
            if *context == 0 {
                return Err(AllocError);
            }
            let path = *context - 1;
            if rows.len() == 1 {
                let inner = shard.children(rows[0], path);
                let more = count(alloc, agg, ready, shard, inner, spare, tree)?;
                return Ok(more);
            }
            let inner = rows_beneath(alloc, shard, path, rows)?;
            let more = count(alloc, agg, ready, shard, inner.as_slice(), spare, tree)?;
            Ok(more)
        }
        Kind::ReverseNested { context } => {
            if !ascend(rows) {
                return Err(AllocError);
            }
            let outer = rows_around(alloc, shard, *context, rows)?;
            let more = count(alloc, agg, ready, shard, outer.as_slice(), spare, tree)?;
            Ok(more)
        }
        Kind::Global => Ok(0),
        Kind::Terms { .. }
        | Kind::Histogram { .. }
        | Kind::DateHistogram { .. }
        | Kind::Filters { .. }
        | Kind::Filter { .. }
        | Kind::Missing { .. }
        | Kind::Composite { .. }
        | Kind::Sum { .. }
        | Kind::Min { .. }
        | Kind::Max { .. }
        | Kind::Avg { .. }
        | Kind::ValueCount { .. } => {
            let more = count(alloc, agg, ready, shard, rows, spare, tree)?;
            Ok(more)
        }
    }
}

/// Puts more rows that the aggregation counts into its tree, as those of the whole shard into that of a global aggregation. The
/// answer is by how many bytes its cost rose. Lists of codes, errors and time as in `gather`.
#[cycle(gather)]
pub(crate) fn count(
    alloc: Global,
    agg: &Agg,
    ready: &Ready,
    shard: &Shard,
    rows: &[u32],
    spare: &mut Vec<Vec<i64>>,
    tree: &mut Tree,
) -> Result<u64, AllocError>
    requires ready { IsReadyFor shard.now agg.now ready.now }
    requires built { IsShard shard.now }
    requires apart { IsApart shard.now.rows }
    requires in_range { All (λ n. n < length shard.now.rows) rows.now }
    ensures tree { OnOk result (decoded shard.now ready.now tree.new
        ≡ counted shard.now.rows agg.now (rows_at shard.now rows.now) (decoded shard.now ready.now tree.old)) }
    ensures cost { IfOk result (λ added. node_cost (decoded shard.now ready.now tree.new)
        ≡ node_cost (decoded shard.now ready.now tree.old) + added) }
{
    match &ready.kind {
        ReadyKind::Single => {
            if rows.is_empty() {
                return Ok(0);
            }
            if !has_buckets(&tree.level) {
                return Err(AllocError);
            }
            let more = put_codes(
                alloc,
                agg,
                ready,
                shard,
                rows,
                spare,
                [0].as_slice(),
                &mut tree.level,
            )?;
            Ok(more)
        }
        ReadyKind::Terms(_)
        | ReadyKind::Filters(_)
        | ReadyKind::Histogram(_)
        | ReadyKind::DateHistogram(_) => {
            if !has_buckets(&tree.level) {
                return Err(AllocError);
            }
            let more = count_keyed(alloc, agg, ready, shard, rows, spare, &mut tree.level)?;
            Ok(more)
        }
        ReadyKind::Metric => {
            take_rows(&agg.kind, shard, rows, &mut tree.level)?;
            Ok(0)
        }
        ReadyKind::Composite => Err(AllocError),
    }
}
