//! Documents of one shard as columns: rows numbered in document order, values by row, words as places in dictionaries.
//! A `Shard` never changes once it is built, and lends its values.
#![tactic(auto)]

mod columns;
mod contexts;
mod draft;
mod entries;
mod field_words;
mod held_rows;
mod homes;
mod index;
mod layout;
mod mapped_words;
mod search;
mod shard;
mod values;
mod words;

pub use draft::ShardDraft;
pub use index::Index;
pub use shard::{Cell, Shard};
