// The finished columns: where the values of each row lie, and how they are lent.
ghost use Rattle.std.specs.Prelude.{◌≡◌, ◌+◌, ◌<◌, ◌≤◌, ◌^◌, ℕ, IfOk, OnOk, IfSome, IfNone, Some, None, length, map, slice_get, slice_index_or};
ghost use Rattle.std.specs.List.Sorted.{IsStrictlyIncreasing};
ghost use Rattle.shard_columns.specs.Homes.{home_of, home_count, AreHomes};
ghost use Rattle.shard_columns.specs.Values.{span_of, span_among as span_among_value, span_between as span_between_value, no_span as no_span_value, IsShaped};
ghost use Rattle.shard_columns.specs.Columnar.{IsColumn, IsFinished, AreFinished, Rises, AreShapedAll, StandFor, wholes_part, ordinals_part, flags_part};
ghost use Rattle.shard_columns.specs.Starts.{HaveStarts, KeepStarts, AreOnes};

use crate::held_rows::HeldRows;
use crate::homes::{Home, Homes};
use crate::search::find_held;
use crate::values::{Draft, Held, Span, Typed, rank_all};
use std::alloc::{AllocError, Global};

/// Where the values of rows are.
#[derive(Drop)]
pub enum Spans {
    /// So many rows of a context, from its first on, have one value each, at the place of the row's rank.
    OneEach { context: u32, count: u32 },
    /// The values of the rows of a context lie one behind the other: where those of each rank start, and at last where all end.
    OfEach { context: u32, starts: Vec<u32> },
    /// A span for each of the few rows that have any, ascending by row.
    OfSome(Vec<Held>),
}

/// The values of one field in all rows.
#[derive(Drop)]
pub struct Column {
    pub spans: Spans,
    pub typed: Typed,
}

fn no_span() -> Span
    ensures { result ≡ no_span_value }
{
    Span { start: 0, end: 0 }
}

// Where the value of a rank is, if it is among so many that have one each.
fn span_among(count: u32, rank: u32) -> Span
    ensures { result ≡ span_among_value count rank }
{
    if rank < count {
        Span {
            start: rank,
            end: rank + 1,
        }
    } else {
        no_span()
    }
}

// Where the values of a rank are, if it has a start and an end.
fn span_between(starts: &[u32], rank: u32) -> Span
    ensures { result ≡ span_between_value starts.now rank }
{
    let next = rank as usize + 1;
    if next < starts.len() {
        Span {
            start: starts[rank as usize],
            end: starts[next],
        }
    } else {
        no_span()
    }
}

// The ranks before this one that have no start yet are without values.
fn skip_to(starts: &mut Vec<u32>, rank: u32, end: u32) -> Result<(), AllocError>
    ensures { OnOk result (KeepStarts starts.old.items starts.new.items end) }
{
    while starts.len() <= rank as usize {
        starts.push(end)?;
    }
    Ok(())
}

// Where the values of each rank of a context start, if all of these rows are of it and their values lie one behind the other.
fn starts_of(
    alloc: Global,
    held: &[Held],
    homes: &Homes,
    last: Home,
) -> Result<Option<Vec<u32>>, AllocError>
    requires rise { IsStrictlyIncreasing (map (λ h. h.row) held.now) }
    requires below { (k : ℕ) (d : _) → k < length held.now → (slice_index_or held.now k d).row < home_count homes.now }
    requires apart { AreHomes homes.now }
    ensures { IfOk result (λ found. IfSome found (λ starts. HaveStarts homes.now last.context held.now starts.items)) }
{
    let mut starts = Vec::with_capacity(alloc, last.rank as usize + 2)?;
    let mut end = 0;
    for one in held {
        let home = homes.at(one.row);
        skip_to(&mut starts, home.rank, end)?;
        let follows = one.span.start == end && one.span.end >= end;
        if home.context != last.context || starts.len() != home.rank as usize + 1 || !follows {
            return Ok(None);
        }
        end = one.span.end;
        starts.push(end)?;
    }
    Ok(Some(starts))
}

// How many ranks have starts, if each has one value, at its place.
fn ones_of(starts: &[u32]) -> Option<u32>
    ensures { IfSome result (AreOnes starts.now) }
{
    for (rank, start) in starts.iter().enumerate() {
        if *start as usize != rank {
            return None;
        }
    }
    match starts {
        [] => None,
        [.., last] => Some(*last),
    }
}

// Starts take at most 32 bytes for each row that has values.
const RANKS_FOR_EACH: usize = 8;

// Where the values of rows of one context are, unless few of its rows have any.
fn spans_by_rank(alloc: Global, held: &[Held], homes: &Homes) -> Result<Option<Spans>, AllocError>
    requires rise { IsStrictlyIncreasing (map (λ h. h.row) held.now) }
    requires below { (k : ℕ) (d : _) → k < length held.now → (slice_index_or held.now k d).row < home_count homes.now }
    requires apart { AreHomes homes.now }
    ensures rises { IfOk result (λ found. IfSome found Rises) }
    ensures spans { IfOk result (λ found. IfSome found (λ spans. StandFor homes.now spans held.now)) }
{
    let Some(last) = held.last() else {
        return Ok(None);
    };
    let last = homes.at(last.row);
    if held.len() < last.rank as usize / RANKS_FOR_EACH {
        return Ok(None);
    }
    let Some(starts) = starts_of(alloc, held, homes, last)? else {
        return Ok(None);
    };
    let context = last.context;
    match ones_of(starts.as_slice()) {
        Some(count) => Ok(Some(Spans::OneEach { context, count })),
        None => Ok(Some(Spans::OfEach { context, starts })),
    }
}

// Where the values of rows with these homes are.
fn spans_of(alloc: Global, held: HeldRows, homes: &Homes) -> Result<Spans, AllocError>
    requires rise { IsStrictlyIncreasing (map (λ h. h.row) held) }
    requires below { (k : ℕ) (d : _) → k < length held → (slice_index_or held k d).row < home_count homes.now }
    requires apart { AreHomes homes.now }
    ensures rises { IfOk result Rises }
    ensures spans { IfOk result (λ spans. StandFor homes.now spans held) }
{
    if let (Some(count), Homes::OfRoots(_)) = (held.ones(), homes) {
        return Ok(Spans::OneEach { context: 0, count });
    }
    let held = held.into_vec(alloc)?;
    match spans_by_rank(alloc, held.as_slice(), homes)? {
        Some(spans) => Ok(spans),
        None => Ok(Spans::OfSome(held)),
    }
}

fn finished(
    alloc: Global,
    draft: Draft,
    ranks: &[usize],
    homes: &Homes,
) -> Result<Column, AllocError>
    requires shaped { IsShaped (home_count homes.now) draft }
    requires apart { AreHomes homes.now }
    ensures { IfOk result (λ column. IsFinished homes.now ranks.now draft column) }
{
    let Draft { held, mut typed } = draft;
    rank_all(&mut typed, ranks);
    let spans = spans_of(alloc, held, homes)?;
    Ok(Column { spans, typed })
}

/// The columns of rows with these homes, where each word's number is put into its place.
pub fn columns(
    alloc: Global,
    drafts: Vec<Draft>,
    ranks: &[usize],
    homes: &Homes,
) -> Result<Vec<Column>, AllocError>
    requires shaped { AreShapedAll (home_count homes.now) drafts.items }
    requires apart { AreHomes homes.now }
    ensures { IfOk result (λ columns. AreFinished homes.now ranks.now drafts.items columns.items) }
{
    let mut columns = Vec::with_capacity(alloc, drafts.len())?;
    for draft in drafts {
        columns.push(finished(alloc, draft, ranks, homes)?)?;
    }
    Ok(columns)
}

/// The column of a field, if it has one.
pub fn column_at(columns: &[Column], field: u32) -> Option<&Column>
    ensures some { IfSome result (λ c. slice_get columns.now field ≡ Some c.now) }
    ensures none { IfNone result (slice_get columns.now field ≡ None) }
{
    columns.get(field as usize)
}

/// Where the values of a row are.
pub fn span_at(column: &Column, homes: &Homes, row: u32) -> Span
    requires sound { IsColumn homes.now column.now }
    requires in_range { row < home_count homes.now }
    ensures { result ≡ span_of homes.now column.now.spans row }
{
    match &column.spans {
        Spans::OneEach { context, count } => match homes.rank(*context, row) {
            Some(rank) => span_among(*count, rank),
            None => no_span(),
        },
        Spans::OfEach { context, starts } => match homes.rank(*context, row) {
            Some(rank) => span_between(starts.as_slice(), rank),
            None => no_span(),
        },
        Spans::OfSome(held) => match find_held(held.as_slice(), row) {
            Some(one) => one.span,
            None => no_span(),
        },
    }
}

/// The whole numbers of a row; none where the column has others.
pub fn wholes_at<'a>(column: &'a Column, homes: &Homes, row: u32) -> &'a [i64]
    requires sound { IsColumn homes.now column.now }
    requires in_range { row < home_count homes.now }
    ensures { result.now ≡ wholes_part column.now.typed (span_of homes.now column.now.spans row) }
{
    let span = span_at(column, homes, row);
    match &column.typed {
        Typed::Wholes(numbers) => &numbers[span.start as usize..span.end as usize],
        Typed::Words(_) | Typed::Flags(_) => &[],
    }
}

/// The places of the words of a row; none where the column has others.
pub fn ordinals_at<'a>(column: &'a Column, homes: &Homes, row: u32) -> &'a [u32]
    requires sound { IsColumn homes.now column.now }
    requires in_range { row < home_count homes.now }
    ensures { result.now ≡ ordinals_part column.now.typed (span_of homes.now column.now.spans row) }
{
    let span = span_at(column, homes, row);
    match &column.typed {
        Typed::Words(places) => &places[span.start as usize..span.end as usize],
        Typed::Wholes(_) | Typed::Flags(_) => &[],
    }
}

/// The flags of a row; none where the column has others.
pub fn flags_at<'a>(column: &'a Column, homes: &Homes, row: u32) -> &'a [bool]
    requires sound { IsColumn homes.now column.now }
    requires in_range { row < home_count homes.now }
    ensures { result.now ≡ flags_part column.now.typed (span_of homes.now column.now.spans row) }
{
    let span = span_at(column, homes, row);
    match &column.typed {
        Typed::Flags(flags) => &flags[span.start as usize..span.end as usize],
        Typed::Wholes(_) | Typed::Words(_) => &[],
    }
}
