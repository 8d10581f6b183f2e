//! Why a reading ends without a value.
use agg_model::Text;
use std::alloc::{AllocError, AllocFailed};

/// Why something that was read is refused.
#[derive(Drop, PartialEq, Eq)]
pub enum RequestFault {
    /// The bytes are not JSON.
    NotJson,
    /// A rule of the format is broken.
    Bad {
        /// The number of the refusal.
        code: u16,
        /// Where the first thing refused stands: a JSON pointer (RFC 6901), or for documents the path of the field.
        path: Text,
    },
    /// Memory ran out.
    Memory,
}

impl From<AllocError> for RequestFault {
    ghost use Rattle.std.specs.Prelude.{◌≡◌};
    ghost use Rattle.agg_reading.specs.declared.fault.RequestFault.TheVariants.{Memory};

    ghost from_gives = { λ _ e. e ≡ Memory };

    fn from(_e: AllocError) -> RequestFault {
        RequestFault::Memory
    }
}

impl<T: Drop> From<AllocFailed<T>> for RequestFault {
    ghost use Rattle.std.specs.Prelude.{◌≡◌};
    ghost use Rattle.agg_reading.specs.declared.fault.RequestFault.TheVariants.{Memory};

    ghost from_gives = { λ _ e. e ≡ Memory };

    fn from(_e: AllocFailed<T>) -> RequestFault {
        RequestFault::Memory
    }
}
