// The buckets of a histogram.
ghost use Rattle.std.specs.Prelude.{◌≡◌, IfOk, OnOk, IsTrue, map};
ghost use Rattle.std.specs.List.{list_all};
ghost use Rattle.agg_model.specs.declared.key.Key.TheVariants.{Whole};
ghost use Rattle.agg_evaluation.specs.KeyOrder.{key_eq};
ghost use Rattle.list_laws.specs.Sorting.{sorted};
ghost use Rattle.agg_evaluation.specs.Orders.{bucket_cmp, bucket_key};
ghost use Rattle.agg_evaluation.specs.Trees.{is_ascending};
ghost use Rattle.agg_spec.specs.Filling.{bucket_at, filled_keys};
ghost use Rattle.agg_spec.specs.Final.{empty_bucket as empty_bucket_of, finisher};
ghost use Rattle.bucket_order.specs.Kinds.{child_kinds};
ghost use Rattle.agg_evaluation.specs.Conditions.{is_spaced};
ghost use Rattle.agg_evaluation.specs.Finishable.{is_histogram_key};
ghost use Rattle.final_reduce.specs.Standing.{with_gaps};
ghost use Rattle.final_reduce.specs.Steps.{key_numbers, left_by, taken};

use crate::grid::{Grid, start_at};
use crate::spans::filled_span;
use agg_model::{Agg, Bucket, Key, List, Order};
use bucket_order::sort_buckets;
use partial_result::empty_nodes;
use std::alloc::{AllocError, Global};
use std::collections::VecDeque;

// A bucket of no documents, with the nodes over no rows below it.
fn empty_bucket(alloc: Global, children: &List<Agg>, key: i128) -> Result<Bucket, AllocError>
    ensures { IfOk result (λ b. b ≡ empty_bucket_of (map finisher children.now) (Whole key)) }
{
    Ok(Bucket {
        key: Key::Whole(key),
        count: 0,
        covered: 0,
        children: empty_nodes(alloc, children)?,
    })
}

fn is_key(bucket: &Bucket, key: i128) -> bool
    ensures { result ≡ key_eq (Whole key) (bucket_key bucket.now) }
{
    match &bucket.key {
        Key::Whole(number) => *number == key,
        Key::Null | Key::Flag(_) | Key::Word(_) | Key::Fixed(_) | Key::Many(_) => false,
    }
}

// The first bucket where it has the key, and else an empty one.
fn take_bucket(
    alloc: Global,
    children: &List<Agg>,
    key: i128,
    rest: &mut VecDeque<Bucket>,
) -> Result<Bucket, AllocError>
    ensures bucket { IfOk result (λ b. b ≡ taken (Whole key) (empty_bucket_of (map finisher children.now) (Whole key)) rest.old.items) }
    ensures rest { OnOk result (rest.new.items ≡ left_by (Whole key) rest.old.items) }
{
    let is_next = match rest.front() {
        Some(bucket) => is_key(bucket, key),
        None => false,
    };
    if is_next && let Some(bucket) = rest.pop_front() {
        return Ok(bucket);
    }
    empty_bucket(alloc, children, key)
}

// All keys from the least to the greatest, each with its bucket or an empty one.
fn filled_buckets(
    alloc: Global,
    children: &List<Agg>,
    grid: Grid,
    buckets: List<Bucket>,
) -> Result<Vec<Bucket>, AllocError>
    requires spaced { IsTrue (is_spaced grid.spacing grid.extended grid.hard) }
    requires keys { IsTrue (list_all (λ b. is_histogram_key grid.spacing grid.hard (bucket_key b)) buckets) }
    requires ascending { IsTrue (is_ascending (map bucket_key buckets)) }
    ensures { IfOk result (λ bs. bs.items
        ≡ map (bucket_at (empty_bucket_of (map finisher children.now)) buckets) (filled_keys grid.spacing grid.extended grid.hard (key_numbers buckets))) }
{
    let mut filled = Vec::new(alloc);
    let Some(span) = filled_span(grid, buckets.as_slice()) else {
        return Ok(filled);
    };
    let mut rest = VecDeque::from_vec(buckets.into_vec());
    let mut number = span.first;
    while number <= span.last {
        let key = start_at(grid, number);
        filled.push(take_bucket(alloc, children, key, &mut rest)?)?;
        number += 1;
    }
    Ok(filled)
}

/// The buckets of a histogram in its order, of those that stand: with a minimum of 0 all keys from the least to the greatest. It
/// takes time in proportion to the buckets that it gives, and to sort them.
pub(crate) fn histogram_buckets(
    alloc: Global,
    children: &List<Agg>,
    grid: Grid,
    min_doc_count: u64,
    order: &List<Order>,
    buckets: List<Bucket>,
) -> Result<List<Bucket>, AllocError>
    requires spaced { IsTrue (is_spaced grid.spacing grid.extended grid.hard) }
    requires keys { IsTrue (list_all (λ b. is_histogram_key grid.spacing grid.hard (bucket_key b)) buckets) }
    requires ascending { IsTrue (is_ascending (map bucket_key buckets)) }
    ensures { IfOk result (λ bs. bs ≡ sorted (bucket_cmp (child_kinds children.now) order.now)
        (with_gaps (empty_bucket_of (map finisher children.now)) grid.spacing min_doc_count grid.extended grid.hard buckets)) }
{
    let mut filled = gaps_filled(alloc, children, grid, min_doc_count, buckets)?;
    sort_buckets(children, order, &mut filled)?;
    Ok(List::from_vec(filled))
}

fn gaps_filled(
    alloc: Global,
    children: &List<Agg>,
    grid: Grid,
    min_doc_count: u64,
    buckets: List<Bucket>,
) -> Result<Vec<Bucket>, AllocError>
    requires spaced { IsTrue (is_spaced grid.spacing grid.extended grid.hard) }
    requires keys { IsTrue (list_all (λ b. is_histogram_key grid.spacing grid.hard (bucket_key b)) buckets) }
    requires ascending { IsTrue (is_ascending (map bucket_key buckets)) }
    ensures { IfOk result (λ bs. bs.items
        ≡ with_gaps (empty_bucket_of (map finisher children.now)) grid.spacing min_doc_count grid.extended grid.hard buckets) }
{
    if min_doc_count == 0 {
        return filled_buckets(alloc, children, grid, buckets);
    }
    Ok(buckets.into_vec())
}
