//! Who answers the searches of a script with one worker, one search at a time (Elasticsearch Reference 8, 'Multi search API',
//! 'Circuit breaker settings').
#![tactic(auto)]

mod worker;

pub use worker::Worker;
