//! Searches that many workers answer side by side (Elasticsearch Reference 8, 'Multi search API', 'Search API'): all bodies are
//! charged and read, their tasks run in one pool, and then each is answered in its turn.
#![tactic(auto)]

pub mod laws;
mod pages;
mod wave;

pub use pages::search_pages;
pub use pool_worker::{Gate, OpenGate, Point};
pub use wave::search_wave;
