//! Why a settings line changes nothing.

use agg_model::Text;
use std::alloc::AllocError;

/// Why a settings line changes nothing.
#[derive(Drop, PartialEq, Eq)]
pub enum ChangeFault {
    /// A name or its value is not taken.
    Refused {
        /// The first name that is unknown or has a bad value; `persistent` or `transient` where that is no object.
        key: Text,
    },
    /// Memory ran out.
    Memory,
}

impl From<AllocError> for ChangeFault {
    ghost use Rattle.std.specs.Prelude.{◌≡◌};
    ghost use Rattle.agg_settings.specs.declared.change_fault.ChangeFault.TheVariants.{Memory};

    ghost from_gives = { λ _ fault. fault ≡ Memory };

    fn from(_error: AllocError) -> ChangeFault {
        ChangeFault::Memory
    }
}
