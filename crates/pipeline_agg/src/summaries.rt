//! What was summed up of the answers of one object: many pipelines may ask for the same.
ghost use Rattle.pipeline_agg.specs.Bounds.{AreInRange};

use agg_model::{Agg, Key, List, NodeAnswer, PipeKind};

/// What pipelines of one kind say of buckets: a value, and the keys of the buckets that have it.
#[derive(Drop)]
pub struct Summary {
    pub(crate) value: Option<i128>,
    pub(crate) keys: List<Key>,
}

/// A kind of pipelines that was asked for, with what such pipelines say.
#[derive(Drop)]
pub struct Known<'p> {
    pub(crate) kind: &'p PipeKind,
    pub(crate) summary: Option<Summary>,
}

/// The answers of one object, with what was summed up of them: many pipelines may ask for the same.
#[derive(Drop)]
pub struct Siblings<'o, 'p> {
    pub(crate) aggs: &'o List<Agg>,
    pub(crate) nodes: &'o List<NodeAnswer>,
    pub(crate) known: Vec<Known<'p>>,
    ghost in_range: { AreInRange aggs.now nodes.now },
}
