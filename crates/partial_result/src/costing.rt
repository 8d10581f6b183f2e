//! The cost of a partial result (Elasticsearch Reference 8, 'Circuit breaker settings').
ghost use Rattle.std.specs.Prelude.{◌≡◌, ◌^◌, ◌<◌, map, sum_by, length};
ghost use Rattle.agg_evaluation.specs.Cost.{key_bytes, node_cost, cost as cost_of};
ghost use Rattle.partial_result.specs.Costs.{cost_of_bucket as bucket_cost_of};

use agg_model::costs::{BUCKET_BYTES, NODE_BYTES};
use agg_model::{Bucket, Key, List, Node, Partial};

/// The cost of a partial result in bytes, by which it is charged to a breaker: `NODE_BYTES` for each node, and for
/// each bucket `BUCKET_BYTES` and the bytes of its key.
pub fn cost(partial: &Partial) -> u64
    requires fits { cost_of partial.now < 2 ^ 64 }
    ensures { result ≡ cost_of partial.now }
{
    cost_of_nodes(&partial.nodes)
}

#[cycle(costs)]
fn cost_of_nodes(nodes: &List<Node>) -> u64
    requires fits { sum_by node_cost nodes.now < 2 ^ 64 }
    ensures { result ≡ sum_by node_cost nodes.now }
{
    let mut total = 0;
    for node in nodes.as_slice() {
        total += cost_of_node(node);
    }
    total
}

#[cycle(costs)]
fn cost_of_node(node: &Node) -> u64
    requires fits { node_cost node.now < 2 ^ 64 }
    ensures { result ≡ node_cost node.now }
{
    match node {
        Node::Keyed { buckets, .. } | Node::Fixed { buckets } => {
            let mut total = NODE_BYTES;
            for bucket in buckets.as_slice() {
                total += cost_of_bucket(bucket);
            }
            total
        }
        Node::Number(_) => NODE_BYTES,
    }
}

#[cycle(costs)]
fn cost_of_bucket(bucket: &Bucket) -> u64
    requires fits { bucket_cost_of bucket.now < 2 ^ 64 }
    ensures { result ≡ bucket_cost_of bucket.now }
{
    BUCKET_BYTES + bytes_of_key(&bucket.key) + cost_of_nodes(&bucket.children)
}

fn bytes_of_key(key: &Key) -> u64
    requires fits { key_bytes key.now < 2 ^ 64 }
    ensures { result ≡ key_bytes key.now }
{
    match key {
        Key::Null => 1,
        Key::Whole(_) | Key::Flag(_) => 8,
        Key::Word(word) => word.len() as u64,
        Key::Fixed(_) => 0,
        Key::Many(parts) => {
            let mut total = 0;
            for part in parts.as_slice() {
                total += bytes_of_key(part);
            }
            total
        }
    }
}
