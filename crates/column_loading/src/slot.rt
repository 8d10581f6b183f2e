//! Ids, with the sources of their live documents.
ghost use Rattle.std.specs.Prelude.{◌≡◌, unwrap_or};

use agg_model::{Bytes, Text};

/// A live document by its source, which is read once more where it is wanted again.
#[derive(Drop)]
pub struct Kept {
    /// None where the document is routed by its id.
    pub routing: Option<Text>,
    pub source: Bytes,
    /// What the document weighs.
    pub weight: u64,
}

/// An id that was once accepted, with its live document or with none.
#[derive(Drop)]
pub struct Slot {
    pub id: Text,
    pub live: Option<Kept>,
}

/// A routing, if it is another than the id.
pub(crate) fn other_routing(id: &Text, routing: Text) -> Option<Text>
    ensures { unwrap_or result id.now ≡ routing }
{
    if routing.as_str() == id.as_str() {
        None
    } else {
        Some(routing)
    }
}
