// Whether each number that an answer prints lies in signed 64 bits.
ghost use Rattle.std.specs.Prelude.{◌≡◌, IfOk, map, flat_map, string_bytes, option_map};
ghost use Rattle.std.specs.List.{list_all};
ghost use Rattle.agg_spec.specs.RangeCheck.{is_in_range as in_range, key_in_range as is_key_in_range, sum_in_range as is_sum_in_range};
ghost use Rattle.agg_spec.specs.RangeCheck.{checker, check_each as checked_each, check_bucket as checked_bucket, first_path};
ghost use Rattle.agg_model.specs.declared.aggregation.Agg.{out-Agg};
ghost use Rattle.final_reduce.specs.Paths.{path_bytes, checked_inside};

use agg_model::{Agg, BucketAnswer, Key, Kind, List, NodeAnswer};
use std::alloc::{AllocError, Global};

fn is_in_range(number: i128) -> bool
    ensures { result ≡ in_range number }
{
    number >= i128::from(i64::MIN) && number <= i128::from(i64::MAX)
}

#[cycle(parts)]
fn key_in_range(key: &Key) -> bool
    ensures { result ≡ is_key_in_range key.now }
{
    match key {
        Key::Whole(number) => is_in_range(*number),
        Key::Many(parts) => parts_in_range(parts),
        Key::Null | Key::Flag(_) | Key::Word(_) | Key::Fixed(_) => true,
    }
}

#[cycle(parts)]
fn parts_in_range(parts: &List<Key>) -> bool
    ensures { result ≡ list_all is_key_in_range parts.now }
{
    for part in parts.as_slice() {
        if !key_in_range(part) {
            return false;
        }
    }
    true
}

// A sum prints under `sum` and `avg`.
fn sum_in_range(kind: &Kind, sum: i128) -> bool
    ensures { result ≡ is_sum_in_range kind.now sum }
{
    match kind {
        Kind::Sum { .. } | Kind::Avg { .. } => is_in_range(sum),
        Kind::Terms { .. }
        | Kind::Histogram { .. }
        | Kind::DateHistogram { .. }
        | Kind::Filters { .. }
        | Kind::Filter { .. }
        | Kind::Missing { .. }
        | Kind::Global
        | Kind::Nested { .. }
        | Kind::ReverseNested { .. }
        | Kind::Composite { .. }
        | Kind::Min { .. }
        | Kind::Max { .. }
        | Kind::ValueCount { .. } => true,
    }
}

// A slash, a name and the path below it.
fn path_below(alloc: Global, name: &str, below: &str) -> Result<String, AllocError>
    ensures { IfOk result (λ path. string_bytes path ≡ path_bytes name.now below.now) }
{
    let mut path = String::new(alloc);
    path.push_str("/")?;
    path.push_str(name)?;
    path.push_str(below)?;
    Ok(path)
}

/// The path of the first number out of range in the answers, `/` before each name on the way.
#[cycle(range)]
pub(crate) fn first_out_of_range(
    alloc: Global,
    aggs: &List<Agg>,
    nodes: &List<NodeAnswer>,
) -> Result<Option<String>, AllocError>
    ensures { IfOk result (λ path. option_map string_bytes path ≡ first_path (checked_each (map checker aggs.now) nodes.now)) }
{
    let mut left = nodes.as_slice().iter();
    for agg in aggs.as_slice() {
        let Some(node) = left.next() else {
            return Ok(None);
        };
        if let Some(path) = check_node(alloc, agg, node)? {
            return Ok(Some(path));
        }
    }
    Ok(None)
}

#[cycle(range)]
fn check_node(alloc: Global, agg: &Agg, node: &NodeAnswer) -> Result<Option<String>, AllocError>
    ensures { IfOk result (λ path. option_map string_bytes path ≡ first_path (checker agg.now node.now)) }
{
    match check_inside(alloc, agg, node)? {
        Some(below) => Ok(Some(path_below(alloc, agg.name.as_str(), below.as_str())?)),
        None => Ok(None),
    }
}

// The sum comes before the buckets.
#[cycle(range)]
fn check_inside(alloc: Global, agg: &Agg, node: &NodeAnswer) -> Result<Option<String>, AllocError>
    ensures { IfOk result (λ path. option_map string_bytes path
        ≡ first_path (checked_inside (map checker (out-Agg agg.now).children) (out-Agg agg.now).kind node.now)) }
{
    if !sum_in_range(&agg.kind, node.metric.sum) {
        return Ok(Some(String::new(alloc)));
    }
    check_buckets(alloc, &agg.children, &node.buckets)
}

#[cycle(range)]
fn check_buckets(
    alloc: Global,
    children: &List<Agg>,
    buckets: &List<BucketAnswer>,
) -> Result<Option<String>, AllocError>
    ensures { IfOk result (λ path. option_map string_bytes path ≡ first_path (flat_map (checked_bucket (map checker children.now)) buckets.now)) }
{
    for bucket in buckets.as_slice() {
        if !key_in_range(&bucket.key) {
            return Ok(Some(String::new(alloc)));
        }
        if let Some(path) = first_out_of_range(alloc, children, &bucket.children)? {
            return Ok(Some(path));
        }
    }
    Ok(None)
}
