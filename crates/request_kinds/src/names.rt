//! Names of filters and sources, which aggregations too are held to.

ghost use Rattle.std.specs.Prelude.{◌≡◌};
ghost use Rattle.json_walk.specs.Places.{pointer};
ghost use Rattle.agg_reading.specs.Reading.{Gives};
ghost use Rattle.agg_reading.specs.Filters.{is_name, name_at};

use agg_model::body_refusal::INVALID_NAME;
use agg_model::limits::MAX_NAME;
use agg_reading::RequestFault;
use json_walk::At;
use std::alloc::Global;

/// Whether a name has 1 to `MAX_NAME` bytes.
pub fn is_name(name: &str) -> bool
    ensures { result ≡ is_name name.now }
{
    0 < name.len() && name.len() <= MAX_NAME
}

/// Refuses, with `INVALID_NAME` at `at`, a name that does not have 1 to `MAX_NAME` bytes.
#[tactic(auto, unfolding(agg_reading::specs::Filters::name_at))]
pub fn check_name(alloc: Global, at: &At<'_>, name: &str) -> Result<(), RequestFault>
    ensures { Gives (λ u. u) result (name_at (pointer at.now) name.now) }
{
    if is_name(name) {
        Ok(())
    } else {
        at.refuse(alloc, INVALID_NAME)
    }
}
