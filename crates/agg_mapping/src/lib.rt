//! Mappings and index lines: read from JSON, and looked up by path.
//!
//! A mapping is walked in byte order of its names, and the first thing that breaks a rule is refused with its pointer.
//! Fields, nested paths and plain objects then stand in byte order of their paths, so that each is found by binary
//! search.
#![tactic(auto)]

mod collected;
mod fault;
mod index_line;
mod lookup;
mod mapping;
mod numbering;
mod ordered;
mod paths;
mod properties;

pub use collected::Collected;
pub use fault::MapFault;
pub use index_line::index_line_of;
pub use lookup::{field, nested};
pub use mapping::mapping_of;
pub use ordered::OrderedMapping;
pub use paths::{HasPath, first, is_beneath};
