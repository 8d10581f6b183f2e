//! Queries, read from JSON to their value or to the first refusal of their walk, which has a number and a pointer.
//!
//! The parts that aggregations share with queries are public too: fields and nested paths by name, and the values that
//! JSON stands for in a field.
#![tactic(auto)]

mod fields;
mod leaves;
mod probes;
mod query;

pub use fields::{field, field_in, nested, path_in};
pub use leaves::{exists, ids, match_all, range, term, terms};
pub use probes::{missing, missing_in, probe, probe_list, probe_list_in};
pub use query::{counted_query_at, query_of};
