// The parts of a node, where the parts that it has not are empty.
ghost use Rattle.std.specs.Prelude.{◌≡◌, IfSome, option_to_list};
ghost use Rattle.agg_evaluation.specs.Whole.{parts};

use agg_model::{Bucket, List, Metric, Node};
use std::alloc::Global;

#[derive(Drop)]
pub(crate) struct NodeParts {
    pub(crate) buckets: List<Bucket>,
    pub(crate) error: u64,
    pub(crate) full: u32,
    pub(crate) cut: u64,
    pub(crate) metric: Option<Metric>,
}

pub(crate) fn into_parts(alloc: Global, node: Node) -> NodeParts
    ensures buckets { result.buckets ≡ (parts node).buckets }
    ensures error { result.error ≡ (parts node).error }
    ensures full { result.full ≡ (parts node).full }
    ensures cut { result.cut ≡ (parts node).cut }
    ensures metric { option_to_list result.metric ≡ (parts node).metrics }
{
    match node {
        Node::Keyed {
            buckets,
            error,
            full,
            cut,
        } => NodeParts {
            buckets,
            error,
            full,
            cut,
            metric: None,
        },
        Node::Fixed { buckets } => NodeParts {
            buckets,
            error: 0,
            full: 0,
            cut: 0,
            metric: None,
        },
        Node::Number(metric) => NodeParts {
            buckets: List::new(alloc),
            error: 0,
            full: 0,
            cut: 0,
            metric: Some(metric),
        },
    }
}
