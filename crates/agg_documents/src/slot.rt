//! The places of a store, one for each id.

ghost use Rattle.std.specs.Prelude.{◌≡◌, option_copied};
ghost use Rattle.agg_documents.specs.Slots.{id_of, document_in};

use agg_model::{Document, Text};

/// An id that was once accepted, with its live document or with none.
#[derive(Drop)]
pub enum Slot {
    Live(Document),
    Gone(Text),
}

impl Slot {
    /// The id, with or without a document.
    pub fn id(&self) -> &Text
        ensures { result.now ≡ id_of self.now }
    {
        match self {
            Slot::Live(document) => &document.id,
            Slot::Gone(id) => id,
        }
    }

    /// The live document.
    pub fn document(&self) -> Option<&Document>
        ensures { option_copied result ≡ document_in self.now }
    {
        match self {
            Slot::Live(document) => Some(document),
            Slot::Gone(_) => None,
        }
    }

    /// The live document itself, moved.
    pub fn into_document(self) -> Option<Document>
        ensures { result ≡ document_in self }
    {
        match self {
            Slot::Live(document) => Some(document),
            Slot::Gone(_) => None,
        }
    }
}
