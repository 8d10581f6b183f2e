//! The page behind a page ('Composite aggregation', pagination).
ghost use Rattle.std.specs.Prelude.{◌≡◌, IfOk, None};
ghost use Rattle.agg_spec.specs.Pages.{is_composite, is_paged, kind_after, last_key};
ghost use Rattle.agg_search.specs.Paging.{search_behind};

use agg_model::{Answer, Copying, Key, Kind, List, Outcome, Search};
use std::alloc::{AllocError, Global};

/// What a search comes to, and the search of the page behind it.
#[derive(Drop)]
pub struct Found {
    pub outcome: Outcome,
    pub next: Option<Search>,
}

impl Found {
    /// An outcome behind which there is no page.
    pub(crate) fn without_page(outcome: Outcome) -> Self
        ensures outcome { result.outcome ≡ outcome }
        ensures next { result.next ≡ None }
    {
        Found {
            outcome,
            next: None,
        }
    }
}

/// The key of the last bucket of the first answer.
pub(crate) fn last_key(alloc: Global, answer: &Answer) -> Result<Option<Key>, AllocError>
    ensures { IfOk result (λ key. key ≡ last_key answer.now.nodes) }
{
    let Some(node) = answer.nodes.get(0) else {
        return Ok(None);
    };
    match node.buckets.as_slice().last() {
        Some(bucket) => Ok(Some(bucket.key.copy(alloc)?)),
        None => Ok(None),
    }
}

/// Whether the kind is a composite, which then goes on after the key.
fn go_on(kind: &mut Kind, key: Key) -> bool
    ensures kind { kind.new ≡ kind_after key kind.old }
    ensures composite { result ≡ is_composite kind.old }
{
    match kind {
        Kind::Composite { after, .. } => {
            *after = Some(key);
            true
        }
        Kind::Terms { .. }
        | Kind::Histogram { .. }
        | Kind::DateHistogram { .. }
        | Kind::Filters { .. }
        | Kind::Filter { .. }
        | Kind::Missing { .. }
        | Kind::Global
        | Kind::Nested { .. }
        | Kind::ReverseNested { .. }
        | Kind::Sum { .. }
        | Kind::Min { .. }
        | Kind::Max { .. }
        | Kind::Avg { .. }
        | Kind::ValueCount { .. } => false,
    }
}

/// The search for what follows the key, where its only aggregation is a composite.
pub(crate) fn search_behind(search: Search, key: Option<Key>) -> Option<Search>
    ensures { result ≡ search_behind (is_paged search.aggs) search key }
{
    let key = key?;
    let mut aggs = search.aggs.into_vec();
    let is_paged = match aggs.as_mut_slice() {
        [agg] => go_on(&mut agg.kind, key),
        _ => false,
    };
    if !is_paged {
        return None;
    }
    Some(Search {
        query: search.query,
        aggs: List::from_vec(aggs),
        body_bytes: search.body_bytes,
        partial: search.partial,
        pipes: search.pipes,
    })
}
