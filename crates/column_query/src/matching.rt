//! Which rows a query matches, by the query as it stands: it takes no memory, and it goes through each list of the query for
//! each value. For many rows prepare the query first.
ghost use Rattle.std.specs.Prelude.{◌≡◌, ◌<◌, ◌+◌, length, map, filter};
ghost use Rattle.std.specs.List.{list_any, list_all};
ghost use Rattle.std.specs.Str.{bytes_eq};
ghost use Rattle.agg_evaluation.specs.Matching.{matches as matches_row};
ghost use Rattle.agg_evaluation.specs.Rows.{row_of};

use crate::values::{Wanted, has_wanted};
use agg_model::{List, Query, Text};
use shard_columns::Shard;

fn is_among(id: &[u8], ids: &[Text]) -> bool
    ensures { result ≡ list_any (bytes_eq id.now) ids.now }
{
    ids.iter().any(|one| one.as_str().as_bytes() == id)
}

#[cycle(matches)]
fn matches_all(shard: &Shard, queries: &List<Query>, row: u32) -> bool
    requires { row < length shard.now.rows }
    ensures { result ≡ list_all (λ query. matches_row shard.now.rows query (row_of shard.now.rows row)) queries.now }
{
    for query in queries.as_slice() {
        if !matches(shard, query, row) {
            return false;
        }
    }
    true
}

#[cycle(matches)]
fn matches_any(shard: &Shard, queries: &List<Query>, row: u32) -> bool
    requires { row < length shard.now.rows }
    ensures { result ≡ list_any (λ query. matches_row shard.now.rows query (row_of shard.now.rows row)) queries.now }
{
    for query in queries.as_slice() {
        if matches(shard, query, row) {
            return true;
        }
    }
    false
}

#[cycle(matches)]
fn count_matching(shard: &Shard, queries: &List<Query>, row: u32) -> usize
    requires { row < length shard.now.rows }
    ensures { result ≡ length (filter (λ query. matches_row shard.now.rows query (row_of shard.now.rows row)) queries.now) }
{
    let mut count = 0;
    for query in queries.as_slice() {
        if matches(shard, query, row) {
            count += 1;
        }
    }
    count
}

/// Whether the query matches this row of the shard.
#[cycle(matches)]
pub fn matches(shard: &Shard, query: &Query, row: u32) -> bool
    requires { row < length shard.now.rows }
    ensures { result ≡ matches_row shard.now.rows query.now (row_of shard.now.rows row) }
{
    match query {
        Query::All => true,
        Query::Term { field, value } => has_wanted(shard, row, *field, Wanted::Equal(value)),
        Query::Terms { field, values } => {
            has_wanted(shard, row, *field, Wanted::OneOf(values.as_slice()))
        }
        Query::Range { field, tests } => {
            has_wanted(shard, row, *field, Wanted::Within(tests.as_slice()))
        }
        Query::Exists { field } => shard.value_count(row, *field) > 0,
        Query::Ids { values } => is_among(shard.id(row), values.as_slice()),
        Query::Bool {
            must,
            must_not,
            should,
            minimum,
        } => {
            if !matches_all(shard, must, row) {
                return false;
            }
            if matches_any(shard, must_not, row) {
                return false;
            }
            *minimum as usize <= count_matching(shard, should, row)
        }
        Query::Nested { path, query } => {
            for place in 0..shard.child_count(row, *path) {
                if matches(shard, query.get(), shard.child(row, *path, place)) {
                    return true;
                }
            }
            false
        }
    }
}
