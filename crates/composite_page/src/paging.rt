//! The page of a composite.
ghost use Rattle.std.specs.Prelude.{◌≡◌, IfOk, IsTrue, filter, length};
ghost use Rattle.agg_evaluation.specs.Orders.{bucket_key};
ghost use Rattle.composite_page.specs.Pages.{are_composite, can_page, is_beyond_any, is_cursor, page_buckets, paged};

use agg_model::{Bucket, CompositeSource, Key, Kind, List, Node};
use bucket_order::{compare_composites, sort_by_key, sort_composites};
use std::alloc::{AllocError, Global};
use std::cmp::Ordering;

/// The first `size` buckets of a composite whose keys are greater than `after`, in the order of its sources, handed back
/// ascending by key. Each key, and `after`, has a part for each source. A node of another kind stays as it is. It takes
/// time n log n for n buckets, and memory in proportion to them; after want of memory the node is spent.
pub fn page(_alloc: Global, kind: &Kind, node: Node) -> Result<Node, AllocError>
    requires { IsTrue (can_page kind.now node) }
    ensures page { IfOk result (λ n. n ≡ paged kind.now node) }
{
    match kind {
        Kind::Composite {
            sources,
            size,
            after,
        } => match node {
            Node::Keyed { buckets, .. } => Ok(Node::Keyed {
                buckets: first_buckets(sources, *size, after, buckets)?,
                error: 0,
                full: 0,
                cut: 0,
            }),
            Node::Fixed { buckets } => Ok(Node::Fixed { buckets }),
            Node::Number(metric) => Ok(Node::Number(metric)),
        },
        Kind::Terms { .. }
        | Kind::Histogram { .. }
        | Kind::DateHistogram { .. }
        | Kind::Filters { .. }
        | Kind::Filter { .. }
        | Kind::Missing { .. }
        | Kind::Global
        | Kind::Nested { .. }
        | Kind::ReverseNested { .. }
        | Kind::Sum { .. }
        | Kind::Min { .. }
        | Kind::Max { .. }
        | Kind::Avg { .. }
        | Kind::ValueCount { .. } => Ok(node),
    }
}

fn first_buckets(
    sources: &List<CompositeSource>,
    size: u32,
    after: &Option<Key>,
    buckets: List<Bucket>,
) -> Result<List<Bucket>, AllocError>
    requires parts { IsTrue (are_composite (length sources.now) buckets) }
    requires cursor { IsTrue (is_cursor (length sources.now) after.now) }
    ensures { IfOk result (λ bs. bs ≡ page_buckets sources.now size after.now buckets) }
{
    let mut first = buckets.into_vec();
    sort_composites(sources, &mut first)?;
    keep_beyond(sources, after, &mut first);
    first.truncate(size as usize);
    sort_by_key(&mut first)?;
    Ok(List::from_vec(first))
}

fn keep_beyond(sources: &List<CompositeSource>, after: &Option<Key>, buckets: &mut Vec<Bucket>)
    ensures { buckets.new.items ≡ filter (λ b. is_beyond_any sources.now after.now (bucket_key b)) buckets.old.items }
{
    buckets.retain(|bucket| is_beyond_key(sources, &bucket.key, after));
}

/// Whether a key comes after the one that is given, in the order of the sources. No key is given where all are after it.
pub fn is_beyond_key(sources: &List<CompositeSource>, key: &Key, after: &Option<Key>) -> bool
    ensures { result ≡ is_beyond_any sources.now after.now key.now }
{
    match after {
        Some(after) => compare_composites(sources, key, after) == Ordering::Greater,
        None => true,
    }
}
