//! The hash of a search on a shard.
ghost use Rattle.std.specs.Prelude.{◌≡◌, fold, flat_map};
ghost use Rattle.std.specs.Hash as fed;
ghost use Rattle.cache_spec.specs.Hashing.{clause_input, entry_input, name_input, probe_input, query_input, search_input, test_input};
ghost use Rattle.std.specs.Cmp.{unsigned_Decides};
ghost use Rattle.std.specs.Hash.{and-Alike, on_Alike, same_Alike};
ghost use Rattle.search_equality.proofs.EqualSearches.{searches-one};

use crate::shard_search::ShardSearch;
use agg_model::{Agg, Probe, Query, RangeTest, Text};
use std::hash::{Hash, Hasher};

impl Hash for ShardSearch {
    ghost hash_input = { entry_input };

    ghost respects_eq = { (and-Alike (on_Alike (λ e. e.shard) (same_Alike fed.u32 unsigned_Decides)) (on_Alike (λ e. e.search) (same_Alike search_input searches-one))).fed };

    fn hash<H: Hasher>(&self, state: &mut H) {
        self.shard.hash(state);
        hash_names(self.search.aggs.as_slice(), state);
        hash_query(&self.search.query, state);
    }
}

fn hash_names<H: Hasher>(aggs: &[Agg], state: &mut H)
    ensures { state.new ≡ fold H.write state.old (flat_map name_input aggs.now) }
{
    for i in 0..aggs.len() {
        aggs[i].name.as_str().hash(state);
    }
}

fn hash_query<H: Hasher>(query: &Query, state: &mut H)
    ensures { state.new ≡ fold H.write state.old (query_input query.now) }
{
    hash_clause(query, state);
    if let Query::Bool {
        must,
        must_not,
        should,
        ..
    } = query
    {
        hash_clauses(must.as_slice(), state);
        hash_clauses(must_not.as_slice(), state);
        hash_clauses(should.as_slice(), state);
    }
}

fn hash_clauses<H: Hasher>(clauses: &[Query], state: &mut H)
    ensures { state.new ≡ fold H.write state.old (flat_map clause_input clauses.now) }
{
    for i in 0..clauses.len() {
        hash_clause(&clauses[i], state);
    }
}

/// A query without those below it.
fn hash_clause<H: Hasher>(query: &Query, state: &mut H)
    ensures { state.new ≡ fold H.write state.old (clause_input query.now) }
{
    match query {
        Query::All => 0u8.hash(state),
        Query::Term { field, value } => {
            field.hash(state);
            hash_probe(value, state);
        }
        Query::Terms { field, values } => {
            field.hash(state);
            hash_probes(values.as_slice(), state);
        }
        Query::Range { field, tests } => {
            field.hash(state);
            hash_tests(tests.as_slice(), state);
        }
        Query::Exists { field } => field.hash(state),
        Query::Ids { values } => hash_texts(values.as_slice(), state),
        Query::Bool { minimum, .. } => minimum.hash(state),
        Query::Nested { path, .. } => path.hash(state),
    }
}

fn hash_texts<H: Hasher>(texts: &[Text], state: &mut H)
    ensures { state.new ≡ fold H.write state.old (flat_map fed.str texts.now) }
{
    for i in 0..texts.len() {
        texts[i].as_str().hash(state);
    }
}

fn hash_tests<H: Hasher>(tests: &[RangeTest], state: &mut H)
    ensures { state.new ≡ fold H.write state.old (flat_map test_input tests.now) }
{
    for i in 0..tests.len() {
        hash_probe(&tests[i].value, state);
    }
}

fn hash_probes<H: Hasher>(values: &[Probe], state: &mut H)
    ensures { state.new ≡ fold H.write state.old (flat_map probe_input values.now) }
{
    for i in 0..values.len() {
        hash_probe(&values[i], state);
    }
}

fn hash_probe<H: Hasher>(value: &Probe, state: &mut H)
    ensures { state.new ≡ fold H.write state.old (probe_input value.now) }
{
    match value {
        Probe::Whole(n) => n.hash(state),
        Probe::Word(w) => w.as_str().hash(state),
        Probe::Flag(b) => b.hash(state),
    }
}
