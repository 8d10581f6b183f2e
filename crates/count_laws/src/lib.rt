//! What the counts of an answer say of the true ones: errors and sums of terms, wherever no shard cut
//! a term on the way, and the pages of a composite aggregation one after another. No code runs.
#![tactic(auto)]

pub mod laws;
