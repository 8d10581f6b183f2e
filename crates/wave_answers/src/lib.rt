//! The answers to searches whose tasks have ended (Elasticsearch Reference 8, 'Search API'): the merge of the results of a search's
//! batches, its final answer, and its line, with their charges.
#![tactic(auto)]

mod answering;
mod charging;
mod ending;
mod merging;

pub use agg_search::Page;
pub use answering::answer_all;
