//! The tree of one aggregation while rows are added.

use crate::measured::Measured;
use crate::number::Taken;
use bucket_places::Places;
use std::marker::Model;
use terms_agg::Counts;

/// The tree of an aggregation over some rows. Contracts see it as that tree, in which codes stand for the keys that rows have,
/// in the order in which they came.
#[cycle(tree)]
#[derive(Drop)]
pub struct Tree {
    pub(crate) level: Level,
}

#[cycle(tree)]
#[derive(Drop)]
pub(crate) enum Level {
    /// Buckets that exist from the first row of their key.
    Keyed(Keyed),
    /// Such buckets, below which there are metrics alone, or nothing.
    Measured(Measured),
    /// Such buckets below which there is nothing: that of a code is there once its counter is not 0.
    Counts(Counts),
    /// Buckets that exist from the start, by number.
    Fixed(Vec<Growing>),
    Number(Taken),
}

/// The bucket at a place is that of the code at this place.
#[cycle(tree)]
#[derive(Drop)]
pub(crate) struct Keyed {
    pub(crate) places: Places,
    pub(crate) buckets: Vec<Growing>,
}

#[cycle(tree)]
#[derive(Drop)]
pub(crate) struct Growing {
    pub(crate) count: u64,
    pub(crate) children: Vec<Tree>,
}

impl Model for Tree {
    ghost use Rattle.agg_model.specs.declared.partial.Node.{Node};
    ghost use Rattle.agg_model.specs.contracts.partial.Node as code_of_node;
    ghost use Rattle.std.specs.Coded.{codes};

    ghost Value = { Node };

    ghost coded = { Prim.hlevel (codes, code_of_node.the_row.coded) };

    ghost use Rattle.growing_tree.specs.Trees.{level_node, IsAligned};
    ghost use Rattle.agg_evaluation.specs.Cost.{node_cost};

    ghost view = { λ t. level_node t.level };

    ghost invariant = { λ t. IsAligned t.level };

    ghost size = { node_cost };

    ghost use Rattle.growing_tree.specs.TreeFalls.{level-falls};

    ghost size_decreases = { λ a h. level-falls a.level h };
}
