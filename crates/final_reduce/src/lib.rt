//! The final answer to a search from the whole of the shard answers (Elasticsearch Reference 8, 'Aggregations': the
//! reduce phase; 'Terms aggregation', 'Histogram aggregation', 'Date histogram aggregation', 'Composite aggregation').
#![tactic(auto)]

mod answer;
mod composite;
mod count;
mod cut;
mod errors;
mod filling;
mod finishing;
mod grid;
mod parts;
mod range;
mod returned;
mod select;
mod spans;
mod terms;

pub use finishing::{FinalFault, finish};
