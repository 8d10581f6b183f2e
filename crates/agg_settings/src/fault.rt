//! Why words give no settings.

ghost use Rattle.std.specs.Prelude.{IsErrAnd};
ghost use Rattle.agg_settings.specs.Usages.{IsUsage};

use agg_model::{Text, Usage};
use std::alloc::{AllocError, AllocFailed, Global};

/// Why words give no settings.
#[derive(Drop, PartialEq, Eq)]
pub enum SettingsFault {
    /// The words are not in the grammar: the first key that fails, with its value.
    Usage(Usage),
    /// Memory ran out.
    Memory,
}

impl From<AllocError> for SettingsFault {
    ghost use Rattle.std.specs.Prelude.{◌≡◌};
    ghost use Rattle.agg_settings.specs.declared.fault.SettingsFault.TheVariants.{Memory};

    ghost from_gives = { λ _ fault. fault ≡ Memory };

    fn from(_error: AllocError) -> SettingsFault {
        SettingsFault::Memory
    }
}

impl<T: Drop> From<AllocFailed<T>> for SettingsFault {
    ghost use Rattle.std.specs.Prelude.{◌≡◌};
    ghost use Rattle.agg_settings.specs.declared.fault.SettingsFault.TheVariants.{Memory};

    ghost from_gives = { λ _ fault. fault ≡ Memory };

    fn from(_error: AllocFailed<T>) -> SettingsFault {
        SettingsFault::Memory
    }
}

/// The refusal of a key with the value given, or want of memory.
pub(crate) fn refused<T>(alloc: Global, key: &str, value: &str) -> Result<T, SettingsFault>
    ensures { IsErrAnd result (λ fault. IsUsage key.now value.now fault) }
{
    Err(SettingsFault::Usage(Usage {
        key: Text::of(alloc, key)?,
        value: Text::of(alloc, value)?,
    }))
}
