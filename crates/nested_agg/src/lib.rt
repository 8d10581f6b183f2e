//! The rows that a nested or a reverse nested aggregation counts (Elasticsearch Reference 8, 'Nested aggregation' and 'Reverse
//! nested aggregation'): those within the rows that it is handed, or those around them.
#![tactic(auto)]

mod around;
mod beneath;
mod nesting;

pub use around::rows_around;
pub use beneath::{Beneath, beneath_each, rows_beneath};
pub use nesting::under;
