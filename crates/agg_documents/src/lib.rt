//! Documents, the store that keeps the live ones, and the lists of documents that its shards get
//! (Elasticsearch Reference 8, 'Bulk API' and '_routing field').
#![tactic(auto)]

mod document;
mod routing;
mod shards;
mod slot;
mod store;
mod weight;

pub use document::document_of;
pub use routing::shard_of;
pub use store::{Store, conflicts, refused};
pub use weight::weight_of;
