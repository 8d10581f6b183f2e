//! Who answers the searches of a script with many workers and several searches at a time (Elasticsearch Reference 8, 'Multi search
//! API', 'Circuit breaker settings').
#![tactic(auto)]

mod crew;
mod team;

pub use crew::Crew;
pub use team::Team;
