//! The tree of an aggregation over the rows of a shard, in the form in which it grows (Elasticsearch Reference 8,
//! 'Aggregations'): the tree over no row, what a bucket costs before its first row, the codes that stand for the keys of a row,
//! the metric of the values taken so far, more rows in a tree, at once or one after another, and a tree that has all its rows as
//! what the shard answers.
#![tactic(auto)]

mod at_codes;
mod beginning;
mod beneath_roots;
mod chosen;
mod coded;
mod counted;
mod empty_trees;
mod finishing;
mod frequent;
mod gathering;
mod groups;
mod in_turn;
mod kinds;
mod lone_rows;
mod measured;
mod number;
mod placing;
mod preparing;
mod ready;
mod sums;
mod table_room;
mod tree;
mod with_trees;

pub use beginning::{begin, begin_trees, bucket_bytes};
pub use empty_trees::{child_bytes, empty_bytes};
pub use finishing::{finish, finish_children};
pub use gathering::{gather, gather_children};
pub use in_turn::{count_each, gather_each};
pub use kinds::{code_bytes, row_codes};
pub use number::Taken;
pub use preparing::{prepare, prepare_all};
pub use ready::{Ready, ReadyKind, Table};
pub use table_room::TableRoom;
pub use tree::Tree;
