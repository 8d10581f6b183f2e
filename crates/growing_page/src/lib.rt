//! The page of a composite aggregation at the top of a search while roots are added (Elasticsearch Reference 8, 'Composite
//! aggregation'), with what each root adds to its cost.
#![tactic(auto)]

mod costs;
mod finishing;
mod gathering;
pub mod laws;
mod page;

pub use finishing::finish_page;
pub use gathering::{Change, gather_root};
pub use page::Page;
