//! How input is read, said once: mappings, bulk actions, documents, queries and search bodies, each to its value
//! or to the first refusal of its walk. This crate has definitions, a few types that they speak of, and no reader.
#![tactic(auto)]

mod fault;
pub mod laws;
mod names;
mod parts;
mod pipes;

pub use fault::RequestFault;
pub use names::{FieldType, KindName, PipeName, QueryName, SourceName};
pub use parts::{
    Counts, Draft, Found, FoundField, FoundPath, Heading, IndexLine, NamedOrder, ReadKind, Role,
};
pub use pipes::{FoundPipe, NamedPath, ReadItem, ReadPipe, ReadPipeKind, Siblings};
