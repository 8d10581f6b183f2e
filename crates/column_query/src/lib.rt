//! Which rows of a shard a query matches (Elasticsearch Reference 8, 'Query DSL'): one row by the query as it stands, or
//! every root by a query that was prepared once for the shard.
#![tactic(auto)]

mod ascending;
mod bounds;
mod content;
mod marks;
mod matched_rows;
mod matching;
mod number_set;
mod numbers;
mod prepared;
mod preparing;
mod values;

pub use matched_rows::{Bits, matched};
pub use matching::matches;
pub use number_set::NumberSet;
pub use prepared::{NumberTest, Prepared, is_match};
pub use preparing::prepare;
