//! Queries that are prepared once for a shard, before its rows are looked at: a word is looked up once in the dictionary of
//! its field, and lists are sorted, so that a row costs its own values times the logarithm of a list.
ghost use Rattle.std.specs.Prelude.{◌≡◌, ◌<◌, length, filter, true, pos};
ghost use Rattle.std.specs.List.{list_any, list_all};
ghost use Rattle.std.specs.Ordering.{nat_cmp, is_eq};
ghost use Rattle.std.specs.Cmp.Lexicographic.{slice_cmp};
ghost use Rattle.agg_evaluation.specs.Rows.{row_of};
ghost use Rattle.column_query.specs.Numbers.{numbers_of, flag_number};
ghost use Rattle.column_query.specs.Prepared.{within_all as within_all_bounds, passes_number, says, reads_below};

use crate::bounds::{Bound, allows_number};
use crate::content::{Content, content_of_field};
use crate::number_set::NumberSet;
use agg_model::{Boxed, List};
use shard_columns::Shard;
use std::collections::BTreeSet;

/// What a query wants of the number of a value.
#[derive(Drop)]
pub enum NumberTest {
    /// This number; none where no row has the value.
    Is(Option<i64>),
    OneOf(NumberSet),
    /// All of these bounds allow it.
    Within(Vec<Bound>),
}

/// A query that is prepared for one shard.
#[derive(Drop)]
pub enum Prepared {
    All,
    /// One value of the field has a number that passes.
    Values {
        field: u32,
        test: NumberTest,
    },
    Exists {
        field: u32,
    },
    Ids {
        ids: BTreeSet<Vec<u8>>,
    },
    Bool {
        must: List<Prepared>,
        must_not: List<Prepared>,
        should: List<Prepared>,
        minimum: u32,
    },
    Nested {
        path: u32,
        query: Boxed<Prepared>,
    },
}

fn within_all(bounds: &[Bound], number: i128) -> bool
    ensures { result ≡ within_all_bounds bounds.now number }
{
    bounds.iter().all(|bound| allows_number(*bound, number))
}

fn passes(test: &NumberTest, number: i64) -> bool
    ensures { result ≡ passes_number test.now number }
{
    match test {
        NumberTest::Is(wanted) => *wanted == Some(number),
        NumberTest::OneOf(numbers) => numbers.contains(number),
        NumberTest::Within(bounds) => within_all(bounds.as_slice(), i128::from(number)),
    }
}

fn has_whole(numbers: &[i64], test: &NumberTest) -> bool
    ensures { result ≡ list_any (passes_number test.now) numbers.now }
{
    numbers.iter().any(|number| passes(test, *number))
}

fn has_ordinal(ordinals: &[u32], test: &NumberTest) -> bool
    ensures { result ≡ list_any (λ o. passes_number test.now (pos o)) ordinals.now }
{
    ordinals
        .iter()
        .any(|ordinal| passes(test, i64::from(*ordinal)))
}

fn has_flag(flags: &[bool], test: &NumberTest) -> bool
    ensures { result ≡ list_any (λ b. passes_number test.now (flag_number b)) flags.now }
{
    flags.iter().any(|flag| passes(test, i64::from(*flag)))
}

// The values of the row are looked up once, and lent.
fn has_number(shard: &Shard, row: u32, field: u32, test: &NumberTest) -> bool
    requires known { field < length shard.now.kinds }
    requires in_range { row < length shard.now.rows }
    ensures { result ≡ list_any (passes_number test.now) (numbers_of shard.now.rows field (row_of shard.now.rows row)) }
{
    match content_of_field(shard, field) {
        Content::Wholes => has_whole(shard.numbers(row, field), test),
        Content::Words => has_ordinal(shard.ordinals(row, field), test),
        Content::Flags => has_flag(shard.flags(row, field), test),
    }
}

fn has_id(ids: &BTreeSet<Vec<u8>>, id: &[u8]) -> bool
    ensures { result ≡ list_any (λ one. is_eq (slice_cmp nat_cmp id.now one.items)) ids.now.keys }
{
    ids.contains(id)
}

#[cycle(says)]
fn all_match(shard: &Shard, queries: &List<Prepared>, row: u32) -> bool
    requires fields { list_all (reads_below (length shard.now.kinds)) queries.now ≡ true }
    requires in_range { row < length shard.now.rows }
    ensures { result ≡ list_all (λ query. says shard.now.rows query (row_of shard.now.rows row)) queries.now }
{
    for query in queries.as_slice() {
        if !is_match(shard, query, row) {
            return false;
        }
    }
    true
}

#[cycle(says)]
fn any_matches(shard: &Shard, queries: &List<Prepared>, row: u32) -> bool
    requires fields { list_all (reads_below (length shard.now.kinds)) queries.now ≡ true }
    requires in_range { row < length shard.now.rows }
    ensures { result ≡ list_any (λ query. says shard.now.rows query (row_of shard.now.rows row)) queries.now }
{
    for query in queries.as_slice() {
        if is_match(shard, query, row) {
            return true;
        }
    }
    false
}

#[cycle(says)]
fn count_matching(shard: &Shard, queries: &List<Prepared>, row: u32) -> usize
    requires fields { list_all (reads_below (length shard.now.kinds)) queries.now ≡ true }
    requires in_range { row < length shard.now.rows }
    ensures { result ≡ length (filter (λ query. says shard.now.rows query (row_of shard.now.rows row)) queries.now) }
{
    let mut count = 0;
    for query in queries.as_slice() {
        if is_match(shard, query, row) {
            count += 1;
        }
    }
    count
}

/// Whether a query that was prepared for this shard matches the row.
#[cycle(says)]
pub fn is_match(shard: &Shard, query: &Prepared, row: u32) -> bool
    requires fields { reads_below (length shard.now.kinds) query.now ≡ true }
    requires in_range { row < length shard.now.rows }
    ensures { result ≡ says shard.now.rows query.now (row_of shard.now.rows row) }
{
    match query {
        Prepared::All => true,
        Prepared::Values { field, test } => has_number(shard, row, *field, test),
        Prepared::Exists { field } => shard.value_count(row, *field) > 0,
        Prepared::Ids { ids } => has_id(ids, shard.id(row)),
        Prepared::Bool {
            must,
            must_not,
            should,
            minimum,
        } => {
            if !all_match(shard, must, row) {
                return false;
            }
            if any_matches(shard, must_not, row) {
                return false;
            }
            *minimum as usize <= count_matching(shard, should, row)
        }
        Prepared::Nested { path, query } => {
            for child in shard.children(row, *path) {
                if is_match(shard, query.get(), *child) {
                    return true;
                }
            }
            false
        }
    }
}
