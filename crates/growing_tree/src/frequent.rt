//! How many rows the terms have at least that are among those that a shard keeps.
ghost use Rattle.std.specs.Prelude.{◌≡◌, ◌≤◌, ℕ, IfSome, filter, length, nat_le};
ghost use Rattle.growing_tree.specs.Frequent.{CutsByCount, IsLeast, is_by_count as is_by_count_first, is_count as is_by_count_alone};

use agg_model::{Kind, List, Order, OrderBy};

// How many counts are told apart: greater ones are taken for one.
const COUNTS: usize = 1024;

// Where there are not so many times the buckets that are kept, all are.
const TIMES: usize = 8;

fn is_count(by: OrderBy) -> bool
    ensures { result ≡ is_by_count_alone by }
{
    match by {
        OrderBy::Count => true,
        OrderBy::Key | OrderBy::Child(_) => false,
    }
}

// Whether buckets are ordered by descending count first.
fn is_by_count(orders: &List<Order>) -> bool
    ensures { result ≡ is_by_count_first orders.now }
{
    match orders.as_slice().first() {
        Some(order) => order.descending && is_count(order.by),
        None => false,
    }
}

// How many terms a shard keeps, where those with most rows come first.
fn kept_by_count(kind: &Kind) -> Option<u32>
    ensures { IfSome result (λ size. (count : ℕ) → size ≤ count → CutsByCount kind.now count) }
{
    match kind {
        Kind::Terms {
            shard_size,
            order,
            ..
        } if is_by_count(order) => Some(*shard_size),
        Kind::Terms { .. }
        | Kind::Histogram { .. }
        | Kind::DateHistogram { .. }
        | Kind::Filters { .. }
        | Kind::Filter { .. }
        | Kind::Missing { .. }
        | Kind::Global
        | Kind::Nested { .. }
        | Kind::ReverseNested { .. }
        | Kind::Composite { .. }
        | Kind::Sum { .. }
        | Kind::Min { .. }
        | Kind::Max { .. }
        | Kind::Avg { .. }
        | Kind::ValueCount { .. } => None,
    }
}

// A count that as many buckets as are kept have at least, and not many more, as far as counts are told apart. Nothing rests on it.
fn likely_least(counts: &[u64], kept: usize) -> u64 {
    let mut having = [0_u32; COUNTS];
    for count in counts {
        let place = (*count).min(COUNTS as u64 - 1) as usize;
        having[place] = having[place].saturating_add(1);
    }
    let mut more: usize = 0;
    for place in 0..COUNTS {
        let count = COUNTS - 1 - place;
        more = more.saturating_add(having[count] as usize);
        if more >= kept {
            return count as u64;
        }
    }
    0
}

// How many of the counts are at least so great.
fn count_from(counts: &[u64], least: u64) -> usize
    ensures { result ≡ length (filter (λ n. nat_le least n) counts.now) }
{
    counts.iter().filter(|count| **count >= least).count()
}

/// How many rows a bucket has at least that is among those that a shard keeps of its terms, by the rows of each bucket: where those
/// with most rows come first, such a number that there are enough of them, so that nothing is made of the others; else 0. Counts of
/// no row, which have no bucket, may be among them. It takes time by the counts.
pub(crate) fn least_count(kind: &Kind, counts: &[u64]) -> u64
    ensures { IsLeast kind.now counts.now result }
{
    let Some(size) = kept_by_count(kind) else {
        return 0;
    };
    let size = size as usize;
    if counts.len() / TIMES <= size {
        return 0;
    }
    let least = likely_least(counts, size);
    if count_from(counts, least) < size {
        return 0;
    }
    least
}
