//! One more row in a page.
ghost use Rattle.std.specs.Prelude.{◌≡◌, ◌<◌, ◌≤◌, ◌+◌, [], ◌∷◌, All, IfErr, IfOk, OnOk, IsTrue, T, length, map, sum_by};
ghost use Rattle.std.specs.List.{list_all};
ghost use Rattle.std.specs.Option.{option_map_or};
ghost use Rattle.agg_model.specs.declared.aggregation.Agg.{out-Agg};
ghost use Rattle.agg_evaluation.specs.Ceiling.{greatest_combinations};
ghost use Rattle.agg_evaluation.specs.CompositeKeys.{is_composite_of};
ghost use Rattle.agg_evaluation.specs.Cost.{node_cost};
ghost use Rattle.agg_evaluation.specs.Counted.{IsApart};
ghost use Rattle.agg_evaluation.specs.Keys.{keys as keys_of_row};
ghost use Rattle.agg_evaluation.specs.Rows.{row_of};
ghost use Rattle.agg_evaluation.specs.Shard.{sorted_by_key};
ghost use Rattle.composite_agg.specs.FirstPages.{empty_page, is_composite};
ghost use Rattle.composite_agg.specs.InOrder.{IsInOrder};
ghost use Rattle.composite_agg.specs.Odometer.{chosen_key, keys_left};
ghost use Rattle.composite_agg.specs.Runs.{AreFilled, IsGapFor, IsSpotOf, in_runs};
ghost use Rattle.composite_agg.specs.Sources.{IsComposite};
ghost use Rattle.growing_tree.specs.Readiness.{AreReadyFor};
ghost use Rattle.growth_laws.specs.BucketBytes.{bucket_bytes};
ghost use Rattle.growth_laws.specs.Gathering.{counted, empty_bucket, gathered_bucket, kept_buckets, put_groups, put_rows};
ghost use Rattle.shard_columns.specs.Built.{IsShard};
ghost use Rattle.growing_tree.specs.Gathered.{decoders, gatherers, rows_at};
ghost use Rattle.growing_page.specs.GrowingPages.{IsCosted, IsPageOf, buckets_of, held_key, is_refused, page_node, shown, shown_all, sources_of};

use crate::costs::{bytes_of_bucket, sum_of};
use crate::page::{Held, Page};
use agg_model::{Agg, Key, Kind, List};
use composite_agg::coded::{Code, code_of, find_spot_by};
use composite_agg::lasts::run_length;
use composite_agg::runs::{Spot, enter, is_outside, last_key};
use composite_agg::{Combinations, are_behind};
use growing_tree::{Ready, begin_trees, gather_children};
use shard_columns::Shard;
use std::alloc::{AllocError, Global};

/// What a row makes of the cost of a page, in bytes: buckets enter and grow, and others leave.
#[derive(Clone, Copy, Debug, PartialEq, Eq)]
pub struct Change {
    pub added: u64,
    pub removed: u64,
}

fn size_of_composite(kind: &Kind) -> u32
    requires { IsTrue (is_composite kind.now) }
    ensures { result ≡ (empty_page kind.now).size }
{
    match kind {
        Kind::Composite { size, .. } => *size,
        Kind::Terms { .. }
        | Kind::Histogram { .. }
        | Kind::DateHistogram { .. }
        | Kind::Filters { .. }
        | Kind::Filter { .. }
        | Kind::Missing { .. }
        | Kind::Global
        | Kind::Nested { .. }
        | Kind::ReverseNested { .. }
        | Kind::Sum { .. }
        | Kind::Min { .. }
        | Kind::Max { .. }
        | Kind::Avg { .. }
        | Kind::ValueCount { .. } => unreachable!(),
    }
}

// Whether the page lets no bucket of the combination that is chosen in.
fn is_refused_by(kind: &Kind, page: &Page, combinations: &Combinations) -> bool
    requires composite { IsTrue (is_composite kind.now) }
    requires order { IsInOrder held_key (sources_of kind.now) (buckets_of page.now) }
    requires filled { AreFilled page.now.runs.items }
    requires held { page.now.held ≡ length (buckets_of page.now) }
    ensures { result ≡ is_refused (empty_page kind.now) (buckets_of page.now) (chosen_key combinations.now) }
{
    match kind {
        Kind::Composite {
            sources,
            size,
            after,
        } => {
            let runs = page.runs.as_slice();
            is_outside(sources, *size, after, page.held, runs, combinations)
        }
        Kind::Terms { .. }
        | Kind::Histogram { .. }
        | Kind::DateHistogram { .. }
        | Kind::Filters { .. }
        | Kind::Filter { .. }
        | Kind::Missing { .. }
        | Kind::Global
        | Kind::Nested { .. }
        | Kind::ReverseNested { .. }
        | Kind::Sum { .. }
        | Kind::Min { .. }
        | Kind::Max { .. }
        | Kind::Avg { .. }
        | Kind::ValueCount { .. } => unreachable!(),
    }
}

// Whether a page of these buckets is full and all keys of a row come after the last one, as those of most rows do. No key is
// built to tell it, and no word of the row is read where the last key's words are at the guesses.
fn are_all_refused(
    shard: &Shard,
    row: u32,
    kind: &Kind,
    held: usize,
    runs: &[Vec<Held>],
    guesses: &mut [u32],
) -> bool
    requires built { IsShard shard.now }
    requires in_range { row < length shard.now.rows }
    requires composite { IsComposite kind.now }
    requires order { IsInOrder held_key (sources_of kind.now) (in_runs runs.now) }
    requires filled { AreFilled runs.now }
    requires held { held ≡ length (in_runs runs.now) }
    ensures { IsTrue result → T (list_all (is_refused (empty_page kind.now) (in_runs runs.now))
        (keys_of_row shard.now.rows kind.now (row_of shard.now.rows row))) }
{
    match kind {
        Kind::Composite { size, .. } => match last_key(runs) {
            Some(last) => held >= *size as usize && are_behind(shard, row, kind, last, guesses),
            None => false,
        },
        Kind::Terms { .. }
        | Kind::Histogram { .. }
        | Kind::DateHistogram { .. }
        | Kind::Filters { .. }
        | Kind::Filter { .. }
        | Kind::Missing { .. }
        | Kind::Global
        | Kind::Nested { .. }
        | Kind::ReverseNested { .. }
        | Kind::Sum { .. }
        | Kind::Min { .. }
        | Kind::Max { .. }
        | Kind::Avg { .. }
        | Kind::ValueCount { .. } => unreachable!(),
    }
}

// The spot of the bucket of the combination that is chosen, or else where one would stand.
fn find(kind: &Kind, page: &Page, combinations: &Combinations, code: Code) -> Result<Spot, Spot>
    requires composite { IsTrue (is_composite kind.now) }
    requires order { IsInOrder held_key (sources_of kind.now) (buckets_of page.now) }
    requires filled { AreFilled page.now.runs.items }
    requires parts { T (list_all (λ h. is_composite_of (length (sources_of kind.now)) (held_key h)) (buckets_of page.now)) }
    requires key_parts { IsTrue (is_composite_of (length (sources_of kind.now)) (chosen_key combinations.now)) }
    ensures found { IfOk result (IsSpotOf held_key page.now.runs.items (chosen_key combinations.now)) }
    ensures absent { IfErr result (IsGapFor held_key (sources_of kind.now) page.now.runs.items (chosen_key combinations.now)) }
{
    match kind {
        Kind::Composite { sources, .. } => {
            let runs = page.runs.as_slice();
            find_spot_by(sources, runs, &page.lasts, combinations, code)
        }
        Kind::Terms { .. }
        | Kind::Histogram { .. }
        | Kind::DateHistogram { .. }
        | Kind::Filters { .. }
        | Kind::Filter { .. }
        | Kind::Missing { .. }
        | Kind::Global
        | Kind::Nested { .. }
        | Kind::ReverseNested { .. }
        | Kind::Sum { .. }
        | Kind::Min { .. }
        | Kind::Max { .. }
        | Kind::Avg { .. }
        | Kind::ValueCount { .. } => unreachable!(),
    }
}

// The code of a combination of these rows, which all have it.
fn code_for(shard: &Shard, rows: &[u32], kind: &Kind, combinations: &Combinations) -> Code
    requires built { IsShard shard.now }
    requires in_range { All (λ n. n < length shard.now.rows) rows.now }
{
    match rows {
        [row, ..] => code_of(shard, *row, kind, combinations),
        [] => Code::default(),
    }
}

// A bucket of a key that comes with these rows.
fn new_bucket(
    alloc: Global,
    aggs: &List<Agg>,
    ready: &List<Ready>,
    shard: &Shard,
    rows: &[u32],
    spare: &mut Vec<Vec<i64>>,
    key: Key,
    code: Code,
) -> Result<Held, AllocError>
    requires ready { AreReadyFor shard.now aggs.now ready.now }
    requires built { IsShard shard.now }
    requires apart { IsApart shard.now.rows }
    requires in_range { All (λ n. n < length shard.now.rows) rows.now }
    ensures bucket { IfOk result (λ h. shown (decoders shard.now ready.now) h
        ≡ gathered_bucket (gatherers shard.now aggs.now) (rows_at shard.now rows.now) (empty_bucket (gatherers shard.now aggs.now) key)) }
    ensures costs { IfOk result (λ h. IsCosted (decoders shard.now ready.now) h) }
{
    let bytes = bytes_of_bucket(&key, aggs)?;
    let mut children = begin_trees(alloc, aggs, ready)?;
    let added = gather_children(alloc, aggs, ready, shard, rows, spare, &mut children)?;
    Ok(Held {
        key,
        count: rows.len() as u64,
        children,
        bytes: sum_of(bytes, added)?,
        code,
    })
}

// More rows in a bucket. The answer is by how many bytes its cost rose.
fn grow(
    alloc: Global,
    aggs: &List<Agg>,
    ready: &List<Ready>,
    shard: &Shard,
    rows: &[u32],
    spare: &mut Vec<Vec<i64>>,
    bucket: &mut Held,
) -> Result<u64, AllocError>
    requires ready { AreReadyFor shard.now aggs.now ready.now }
    requires built { IsShard shard.now }
    requires apart { IsApart shard.now.rows }
    requires in_range { All (λ n. n < length shard.now.rows) rows.now }
    requires costs { IsCosted (decoders shard.now ready.now) bucket.old }
    ensures bucket { OnOk result (shown (decoders shard.now ready.now) bucket.new
        ≡ gathered_bucket (gatherers shard.now aggs.now) (rows_at shard.now rows.now) (shown (decoders shard.now ready.now) bucket.old)) }
    ensures costs { OnOk result (IsCosted (decoders shard.now ready.now) bucket.new) }
    ensures added { IfOk result (λ added. bucket.new.bytes ≡ bucket.old.bytes + added) }
{
    let count = sum_of(bucket.count, rows.len() as u64)?;
    let added = gather_children(alloc, aggs, ready, shard, rows, spare, &mut bucket.children)?;
    bucket.bytes = sum_of(bucket.bytes, added)?;
    bucket.count = count;
    Ok(added)
}

// What a bucket that leaves the page costs.
fn bytes_of(left: Option<Held>) -> u64
    ensures { result ≡ option_map_or (λ h. h.bytes) left 0 }
{
    match left {
        Some(left) => left.bytes,
        None => 0,
    }
}

// Puts rows at the combination that is chosen. Its key is built where a bucket of it enters, and else not.
fn put_chosen(
    alloc: Global,
    agg: &Agg,
    ready: &List<Ready>,
    shard: &Shard,
    rows: &[u32],
    spare: &mut Vec<Vec<i64>>,
    page: &mut Page,
    combinations: &Combinations,
) -> Result<Change, AllocError>
    requires ready { AreReadyFor shard.now (out-Agg agg.now).children ready.now }
    requires built { IsShard shard.now }
    requires apart { IsApart shard.now.rows }
    requires in_range { All (λ n. n < length shard.now.rows) rows.now }
    requires composite { IsTrue (is_composite (out-Agg agg.now).kind) }
    requires parts { IsTrue (is_composite_of (length (sources_of (out-Agg agg.now).kind)) (chosen_key combinations.now)) }
    requires page { IsPageOf (out-Agg agg.now).kind (decoders shard.now ready.now) page.old }
    ensures buckets { OnOk result (sorted_by_key (shown_all (decoders shard.now ready.now) (buckets_of page.new))
        ≡ kept_buckets (out-Agg agg.now).kind (put_rows (gatherers shard.now (out-Agg agg.now).children) (rows_at shard.now rows.now) (chosen_key combinations.now)
        (sorted_by_key (shown_all (decoders shard.now ready.now) (buckets_of page.old))))) }
    ensures page { OnOk result (IsPageOf (out-Agg agg.now).kind (decoders shard.now ready.now) page.new) }
    ensures cost { IfOk result (λ change. sum_by bucket_bytes (shown_all (decoders shard.now ready.now) (buckets_of page.new)) + change.removed
        ≡ sum_by bucket_bytes (shown_all (decoders shard.now ready.now) (buckets_of page.old)) + change.added) }
{
    if is_refused_by(&agg.kind, page, combinations) {
        return Ok(Change {
            added: 0,
            removed: 0,
        });
    }
    let code = code_for(shard, rows, &agg.kind, combinations);
    match find(&agg.kind, page, combinations, code) {
        Ok(spot) => {
            let bucket = &mut page.runs[spot.run][spot.at];
            let added = grow(alloc, &agg.children, ready, shard, rows, spare, bucket)?;
            Ok(Change { added, removed: 0 })
        }
        Err(spot) => {
            let key = combinations.key(alloc)?;
            let bucket = new_bucket(alloc, &agg.children, ready, shard, rows, spare, key, code)?;
            let added = bucket.bytes;
            let size = size_of_composite(&agg.kind);
            let before = run_length(page.runs.as_slice(), spot.run);
            let left = enter(size, &mut page.held, &mut page.runs, spot, bucket)?;
            page.lasts.note(page.runs.as_slice(), spot.run, before);
            Ok(Change {
                added,
                removed: bytes_of(left),
            })
        }
    }
}

// Puts rows at the combination that is chosen, and at those behind it.
fn put_combinations(
    alloc: Global,
    agg: &Agg,
    ready: &List<Ready>,
    shard: &Shard,
    rows: &[u32],
    spare: &mut Vec<Vec<i64>>,
    page: &mut Page,
    mut combinations: Combinations,
) -> Result<Change, AllocError>
    requires ready { AreReadyFor shard.now (out-Agg agg.now).children ready.now }
    requires built { IsShard shard.now }
    requires apart { IsApart shard.now.rows }
    requires in_range { All (λ n. n < length shard.now.rows) rows.now }
    requires composite { IsTrue (is_composite (out-Agg agg.now).kind) }
    requires parts { T (list_all (is_composite_of (length (sources_of (out-Agg agg.now).kind))) (keys_left combinations)) }
    requires page { IsPageOf (out-Agg agg.now).kind (decoders shard.now ready.now) page.old }
    ensures buckets { OnOk result (sorted_by_key (shown_all (decoders shard.now ready.now) (buckets_of page.new))
        ≡ put_groups (λ q. rows_at shard.now rows.now) (gatherers shard.now (out-Agg agg.now).children) (out-Agg agg.now).kind
        (keys_left combinations.entry) (sorted_by_key (shown_all (decoders shard.now ready.now) (buckets_of page.old)))) }
    ensures page { OnOk result (IsPageOf (out-Agg agg.now).kind (decoders shard.now ready.now) page.new) }
    ensures cost { IfOk result (λ change. sum_by bucket_bytes (shown_all (decoders shard.now ready.now) (buckets_of page.new)) + change.removed
        ≡ sum_by bucket_bytes (shown_all (decoders shard.now ready.now) (buckets_of page.old)) + change.added) }
{
    let mut change = put_chosen(alloc, agg, ready, shard, rows, spare, page, &combinations)?;
    'behind: while combinations.advance() {
        let more = put_chosen(alloc, agg, ready, shard, rows, spare, page, &combinations)?;
        change = Change {
            added: sum_of(change.added, more.added)?,
            removed: sum_of(change.removed, more.removed)?,
        };
    }
    Ok(change)
}

// The page with one more row.
fn put_row(
    alloc: Global,
    agg: &Agg,
    ready: &List<Ready>,
    shard: &Shard,
    row: u32,
    spare: &mut Vec<Vec<i64>>,
    page: &mut Page,
) -> Result<Change, AllocError>
    requires ready { AreReadyFor shard.now (out-Agg agg.now).children ready.now }
    requires built { IsShard shard.now }
    requires apart { IsApart shard.now.rows }
    requires in_range { row < length shard.now.rows }
    requires composite { IsComposite (out-Agg agg.now).kind }
    requires few { length (keys_of_row shard.now.rows (out-Agg agg.now).kind (row_of shard.now.rows row)) ≤ greatest_combinations }
    requires page { IsPageOf (out-Agg agg.now).kind (decoders shard.now ready.now) page.old }
    ensures node { OnOk result (page_node (decoders shard.now ready.now) page.new
        ≡ counted shard.now.rows agg.now (row_of shard.now.rows row ∷ []) (page_node (decoders shard.now ready.now) page.old)) }
    ensures page { OnOk result (IsPageOf (out-Agg agg.now).kind (decoders shard.now ready.now) page.new) }
    ensures cost { IfOk result (λ change. node_cost (page_node (decoders shard.now ready.now) page.new) + change.removed
        ≡ node_cost (page_node (decoders shard.now ready.now) page.old) + change.added) }
{
    match Combinations::of_row(alloc, shard, row, &agg.kind)? {
        Some(combinations) => {
            let one = [row];
            let change = put_combinations(
                alloc,
                agg,
                ready,
                shard,
                one.as_slice(),
                spare,
                page,
                combinations,
            )?;
            Ok(change)
        }
        None => Ok(Change {
            added: 0,
            removed: 0,
        }),
    }
}

/// The page with one more row that the composite counts, and what that makes of its cost. The row has at most 65,536 keys. After
/// want of memory nothing is said of the page.
///
/// A key outside the page takes one comparison with the last bucket of a full one. Any other is found in the logarithm of the
/// page, and is built only where a bucket of it enters: beside the page the row's parts alone take memory. A bucket that enters
/// moves those behind it in its run, which are fewer than 64; where a run becomes so long it is parted, which moves the runs
/// behind it, of 32 buckets or more each.
pub fn gather_root(
    alloc: Global,
    agg: &Agg,
    ready: &List<Ready>,
    shard: &Shard,
    row: u32,
    spare: &mut Vec<Vec<i64>>,
    page: &mut Page,
) -> Result<Change, AllocError>
    requires ready { AreReadyFor shard.now (out-Agg agg.now).children ready.now }
    requires built { IsShard shard.now }
    requires apart { IsApart shard.now.rows }
    requires in_range { row < length shard.now.rows }
    requires composite { IsComposite (out-Agg agg.now).kind }
    requires few { length (keys_of_row shard.now.rows (out-Agg agg.now).kind (row_of shard.now.rows row)) ≤ greatest_combinations }
    requires page { IsPageOf (out-Agg agg.now).kind (decoders shard.now ready.now) page.old }
    ensures node { OnOk result (page_node (decoders shard.now ready.now) page.new
        ≡ counted shard.now.rows agg.now (row_of shard.now.rows row ∷ []) (page_node (decoders shard.now ready.now) page.old)) }
    ensures page { OnOk result (IsPageOf (out-Agg agg.now).kind (decoders shard.now ready.now) page.new) }
    ensures cost { IfOk result (λ change. node_cost (page_node (decoders shard.now ready.now) page.new) + change.removed
        ≡ node_cost (page_node (decoders shard.now ready.now) page.old) + change.added) }
{
    let guesses = page.guesses.as_mut_slice();
    if are_all_refused(
        shard,
        row,
        &agg.kind,
        page.held,
        page.runs.as_slice(),
        guesses,
    ) {
        return Ok(Change {
            added: 0,
            removed: 0,
        });
    }
    put_row(alloc, agg, ready, shard, row, spare, page)
}
