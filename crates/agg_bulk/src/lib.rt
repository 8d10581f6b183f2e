//! Loading: the first two sections of a script, from its index line to the empty line behind its bulk actions, to an
//! index with the charge of its columns (Elasticsearch Reference 8, 'Create index API', 'Bulk API', 'Circuit breaker
//! settings').
#![tactic(auto)]

mod actions;
mod charging;
mod columns;
mod end;
mod index;
mod items;
mod loading;
mod sections;

pub use columns::columns_charge;
pub use end::LoadEnd;
pub use index::{LoadedIndex, load_index};
pub use loading::{Loaded, load};
pub use sections::{Sections, load_sections};
