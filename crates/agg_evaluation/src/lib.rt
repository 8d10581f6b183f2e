//! What a search answers, said once: rows, matching, keys, groups, the shard answer, the whole, its cost and its trace.
//! This crate has definitions, the lemmas on them that other crates cite, and no code that runs.
#![tactic(auto)]
