//! A search of an index (Elasticsearch Reference 8, 'Search API'): its tasks on the shards, their merges in batches, and the
//! final answer, each with its charges at the breakers.
#![tactic(auto)]

mod answering;
mod charging;
mod merging;
mod pages;
mod paging;
mod progress;
mod reducing;
mod shard_tasks;
mod solo;
mod stop;
mod tasks;

pub use answering::outcome_of;
pub use pages::search_pages;
pub use paging::Found;
pub use solo::{Page, search_cached, search_solo};
