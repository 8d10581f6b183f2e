//! Why a text gives no value.

use json::Invalid;
use std::alloc::AllocError;

/// Why a text gives no value.
#[derive(Drop)]
pub(crate) enum Fault {
    /// It is no JSON.
    NotJson,
    /// Memory ran out.
    Memory,
}

impl From<Invalid> for Fault {
    ghost use Rattle.std.specs.Prelude.{◌≡◌};
    ghost use Rattle.lent_json.specs.declared.fault.Fault.TheVariants.{NotJson};

    ghost from_gives = { λ _ fault. fault ≡ NotJson };

    fn from(_invalid: Invalid) -> Fault {
        Fault::NotJson
    }
}

impl From<AllocError> for Fault {
    ghost use Rattle.std.specs.Prelude.{◌≡◌};
    ghost use Rattle.lent_json.specs.declared.fault.Fault.TheVariants.{Memory};

    ghost from_gives = { λ _ fault. fault ≡ Memory };

    fn from(_error: AllocError) -> Fault {
        Fault::Memory
    }
}
