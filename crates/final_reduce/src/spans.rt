// The intervals of a histogram whose gaps are filled, found by their numbers and not one by one.
ghost use Rattle.std.specs.Prelude.{◌≡◌, ◌^◌, ◌≤ℤ◌, ℤ, pos, ◌-ℤ◌, IsTrue, option_map, []};
ghost use Rattle.std.specs.Option.{IfNone, IfSome, option_map_or};
ghost use Rattle.std.specs.Int.{int_min, int_max};
ghost use Rattle.std.specs.List.{list_all, reduce};
ghost use Rattle.agg_evaluation.specs.Conditions.{is_spaced};
ghost use Rattle.agg_evaluation.specs.Finishable.{is_histogram_key, is_near};
ghost use Rattle.agg_evaluation.specs.Orders.{bucket_key};
ghost use Rattle.agg_evaluation.specs.Spacings as intervals;
ghost use Rattle.agg_spec.specs.Filling.{least_key, greatest_key, has_buckets as has_any_bucket, filled_keys};
ghost use Rattle.agg_spec.specs.GapCount.{interval_count as count_of_intervals, filled_count};
ghost use Rattle.final_reduce.specs.Steps.{IsNearNumber, IsSpan, first_from, is_bound, key_numbers, last_to};

use crate::grid::{Grid, number_at, number_of_bound, start_at};
use agg_model::{Bucket, Key};

/// The numbers of the intervals from the first to the last; there are none where the first is above the last.
#[derive(Clone, Copy)]
pub(crate) struct Span {
    pub(crate) first: i128,
    pub(crate) last: i128,
}

// The number of the first interval that does not begin before the bound.
fn number_from(grid: Grid, bound: i64) -> i128
    requires spaced { IsTrue (is_spaced grid.spacing grid.extended grid.hard) }
    requires bound { IsTrue (is_bound grid.spacing bound) }
    ensures { result ≡ intervals.number_from grid.spacing bound }
{
    let number = number_of_bound(grid, bound);
    if start_at(grid, number) < i128::from(bound) {
        return number + 1;
    }
    number
}

// How many intervals have a number from the first to the last.
fn interval_count(first: i128, last: i128) -> u128
    requires low { (pos 0 -ℤ pos (2 ^ 80)) ≤ℤ first }
    requires high { last ≤ℤ pos (2 ^ 80) }
    ensures { result ≡ count_of_intervals first last }
{
    if first > last {
        return 0;
    }
    (last - first).unsigned_abs() + 1
}

fn lesser(one: Option<i128>, other: i128) -> i128
    ensures { result ≡ option_map_or (λ n. int_min n other) one other }
{
    match one {
        Some(number) => number.min(other),
        None => other,
    }
}

fn greater(one: Option<i128>, other: i128) -> i128
    ensures { result ≡ option_map_or (λ n. int_max n other) one other }
{
    match one {
        Some(number) => number.max(other),
        None => other,
    }
}

fn own_least(buckets: &[Bucket]) -> Option<i128>
    ensures { result ≡ reduce int_min (key_numbers buckets.now) }
{
    let mut least = None;
    for bucket in buckets {
        match &bucket.key {
            Key::Whole(number) => least = Some(lesser(least, *number)),
            Key::Null | Key::Flag(_) | Key::Word(_) | Key::Fixed(_) | Key::Many(_) => {}
        }
    }
    least
}

// The number of a key, where there is one.
fn number_of_key(grid: Grid, key: Option<i128>) -> Option<i128>
    requires spaced { IsTrue (is_spaced grid.spacing grid.extended grid.hard) }
    requires near { IfSome key (λ k. IsTrue (is_near grid.spacing k)) }
    ensures number { result ≡ option_map (intervals.number_at grid.spacing) key }
    ensures near { IfSome result (IsNearNumber grid.spacing) }
    ensures low { IfSome result (λ n. (pos 0 -ℤ pos (2 ^ 80)) ≤ℤ n) }
    ensures high { IfSome result (λ n. n ≤ℤ pos (2 ^ 80)) }
{
    Some(number_at(grid, key?))
}

// The number of the least of the buckets' keys and of the key of the lower bound.
fn least_number(grid: Grid, buckets: &[Bucket]) -> Option<i128>
    requires spaced { IsTrue (is_spaced grid.spacing grid.extended grid.hard) }
    requires keys { IsTrue (list_all (λ b. is_histogram_key grid.spacing grid.hard (bucket_key b)) buckets.now) }
    ensures number { result ≡ option_map (intervals.number_at grid.spacing) (least_key grid.spacing grid.extended (key_numbers buckets.now)) }
    ensures near { IfSome result (IsNearNumber grid.spacing) }
    ensures low { IfSome result (λ n. (pos 0 -ℤ pos (2 ^ 80)) ≤ℤ n) }
{
    let own = number_of_key(grid, own_least(buckets));
    match grid.extended.min {
        Some(bound) => Some(lesser(own, number_of_bound(grid, bound))),
        None => own,
    }
}

fn own_greatest(buckets: &[Bucket]) -> Option<i128>
    ensures { result ≡ reduce int_max (key_numbers buckets.now) }
{
    let mut greatest = None;
    for bucket in buckets {
        match &bucket.key {
            Key::Whole(number) => greatest = Some(greater(greatest, *number)),
            Key::Null | Key::Flag(_) | Key::Word(_) | Key::Fixed(_) | Key::Many(_) => {}
        }
    }
    greatest
}

// The number of the greatest of the buckets' keys and of the key of the upper bound.
fn greatest_number(grid: Grid, buckets: &[Bucket]) -> Option<i128>
    requires spaced { IsTrue (is_spaced grid.spacing grid.extended grid.hard) }
    requires keys { IsTrue (list_all (λ b. is_histogram_key grid.spacing grid.hard (bucket_key b)) buckets.now) }
    ensures number { result ≡ option_map (intervals.number_at grid.spacing) (greatest_key grid.spacing grid.extended (key_numbers buckets.now)) }
    ensures near { IfSome result (IsNearNumber grid.spacing) }
    ensures high { IfSome result (λ n. n ≤ℤ pos (2 ^ 80)) }
{
    let own = number_of_key(grid, own_greatest(buckets));
    match grid.extended.max {
        Some(bound) => Some(greater(own, number_of_bound(grid, bound))),
        None => own,
    }
}

// Where no bucket has a document, there are keys only where both bounds are given.
fn has_buckets(grid: Grid, buckets: &[Bucket]) -> bool
    requires spaced { IsTrue (is_spaced grid.spacing grid.extended grid.hard) }
    requires keys { IsTrue (list_all (λ b. is_histogram_key grid.spacing grid.hard (bucket_key b)) buckets.now) }
    ensures { result ≡ has_any_bucket grid.extended (key_numbers buckets.now) }
{
    !buckets.is_empty() || (grid.extended.min.is_some() && grid.extended.max.is_some())
}

// The number of the first interval, from one on, that begins within the bounds.
fn first_within(grid: Grid, least: i128) -> i128
    requires spaced { IsTrue (is_spaced grid.spacing grid.extended grid.hard) }
    ensures number { result ≡ first_from grid.spacing grid.hard least }
    ensures low { least ≤ℤ result }
{
    match grid.hard.min {
        Some(bound) => least.max(number_from(grid, bound)),
        None => least,
    }
}

// The number of the last one, up to another.
fn last_within(grid: Grid, greatest: i128) -> i128
    requires spaced { IsTrue (is_spaced grid.spacing grid.extended grid.hard) }
    ensures number { result ≡ last_to grid.spacing grid.hard greatest }
    ensures high { result ≤ℤ greatest }
{
    match grid.hard.max {
        Some(bound) => greatest.min(number_of_bound(grid, bound)),
        None => greatest,
    }
}

/// The intervals of a histogram with these buckets, gaps included; none where it has no bucket.
pub(crate) fn filled_span(grid: Grid, buckets: &[Bucket]) -> Option<Span>
    requires spaced { IsTrue (is_spaced grid.spacing grid.extended grid.hard) }
    requires keys { IsTrue (list_all (λ b. is_histogram_key grid.spacing grid.hard (bucket_key b)) buckets.now) }
    ensures no_count { IfNone result (filled_count grid.spacing grid.extended grid.hard (key_numbers buckets.now) ≡ 0) }
    ensures no_key { IfNone result (filled_keys grid.spacing grid.extended grid.hard (key_numbers buckets.now) ≡ []) }
    ensures span { IfSome result (λ s. IsSpan grid.spacing grid.extended grid.hard (key_numbers buckets.now) s.first s.last) }
    ensures near { IfSome result (λ s. (n : ℤ) → s.first ≤ℤ n → n ≤ℤ s.last → IsNearNumber grid.spacing n) }
    ensures low { IfSome result (λ s. (pos 0 -ℤ pos (2 ^ 80)) ≤ℤ s.first) }
    ensures high { IfSome result (λ s. s.last ≤ℤ pos (2 ^ 80)) }
{
    if !has_buckets(grid, buckets) {
        return None;
    }
    let least = least_number(grid, buckets)?;
    let greatest = greatest_number(grid, buckets)?;
    Some(Span {
        first: first_within(grid, least),
        last: last_within(grid, greatest),
    })
}

/// The number of keys of a histogram with these buckets, gaps included.
pub(crate) fn filled_number(grid: Grid, buckets: &[Bucket]) -> u128
    requires spaced { IsTrue (is_spaced grid.spacing grid.extended grid.hard) }
    requires keys { IsTrue (list_all (λ b. is_histogram_key grid.spacing grid.hard (bucket_key b)) buckets.now) }
    ensures { result ≡ filled_count grid.spacing grid.extended grid.hard (key_numbers buckets.now) }
{
    match filled_span(grid, buckets) {
        Some(span) => interval_count(span.first, span.last),
        None => 0,
    }
}
