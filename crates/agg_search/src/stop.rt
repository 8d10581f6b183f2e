//! Why a search stops before it has a whole.
ghost use Rattle.std.specs.Prelude.{◌≡◌};
ghost use Rattle.agg_search.specs.declared.stop.Stop.TheVariants.{Memory as OutOfMemory};

use agg_model::Tripped;
use std::alloc::AllocError;

/// Why a search stops.
#[derive(Drop)]
pub enum Stop {
    /// A breaker refused a charge.
    Refused(Tripped),
    /// Memory ran out.
    Memory,
}

impl From<AllocError> for Stop {
    ghost from_gives = { λ _ stop. stop ≡ OutOfMemory };

    fn from(_error: AllocError) -> Self {
        Stop::Memory
    }
}
