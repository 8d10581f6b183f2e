//! Pipelines over an answer (Elasticsearch Reference 8, 'Pipeline aggregations'): what each says in the objects where it
//! stands, and the buckets that a `bucket_sort` leaves.
//!
//! An answer is gone through once, in the order in which it prints, and its buckets are moved, never copied. Where no
//! pipeline stands beneath an aggregation, its answer is handed on as it is.
#![tactic(auto)]

mod applying;
mod arranging;
mod entries;
mod extremes;
mod fault;
mod objects;
mod parents;
mod placed;
mod places;
mod remarked;
mod siblings;
mod sorting;
mod summaries;
mod values;

pub use applying::apply;
pub use fault::PipeFault;
