//! Bulk actions and what became of them (Elasticsearch Reference 8, 'Bulk API').
use crate::bytes::Bytes;
use crate::copying::Copying;
use crate::text::Text;
use std::alloc::{AllocError, Global};

/// The actions of a bulk line.
#[derive(Clone, Copy, Debug, PartialEq, Eq)]
pub enum ActionKind {
    /// Puts a document in the place of any of its id.
    Index,
    /// Puts a document whose id must not be live.
    Create,
    Delete,
}

/// An action with its source line; a delete has an empty source.
#[derive(Drop)]
pub struct Action {
    pub kind: ActionKind,
    pub id: Text,
    pub routing: Text,
    pub source: Bytes,
}

/// What an accepted action did.
#[derive(Clone, Copy, Debug, PartialEq, Eq)]
pub enum Applied {
    Created,
    Updated,
    Deleted,
    NotFound,
}

/// Why an item was refused.
#[derive(Drop, PartialEq, Eq)]
pub struct ItemRefusal {
    /// One of `item_refusal`, or `script_refusal::NOT_BUILT`.
    pub number: u8,
    /// The path of the member, its names joined by dots.
    pub path: Text,
}

/// How an item ended.
#[derive(Drop)]
pub enum ItemEnd {
    Applied(Applied),
    Refused(ItemRefusal),
}

/// An item of the bulk response.
#[derive(Drop)]
pub struct Item {
    pub kind: ActionKind,
    pub id: Text,
    pub end: ItemEnd,
}

impl Copying for Action {
    fn copy(&self, alloc: Global) -> Result<Self, AllocError> {
        Ok(Action {
            kind: self.kind,
            id: self.id.copy(alloc)?,
            routing: self.routing.copy(alloc)?,
            source: self.source.copy(alloc)?,
        })
    }
}

impl Copying for ItemRefusal {
    fn copy(&self, alloc: Global) -> Result<Self, AllocError> {
        Ok(ItemRefusal {
            number: self.number,
            path: self.path.copy(alloc)?,
        })
    }
}

impl Copying for ItemEnd {
    fn copy(&self, alloc: Global) -> Result<Self, AllocError> {
        match self {
            ItemEnd::Applied(applied) => Ok(ItemEnd::Applied(*applied)),
            ItemEnd::Refused(refusal) => Ok(ItemEnd::Refused(refusal.copy(alloc)?)),
        }
    }
}

impl Copying for Item {
    fn copy(&self, alloc: Global) -> Result<Self, AllocError> {
        Ok(Item {
            kind: self.kind,
            id: self.id.copy(alloc)?,
            end: self.end.copy(alloc)?,
        })
    }
}
