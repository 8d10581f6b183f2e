//! Why there is no document.

use agg_model::ItemRefusal;
use std::alloc::AllocError;

/// Why there is no document, or no value.
#[derive(Drop)]
pub enum ItemFault {
    /// The item is refused.
    Refused(ItemRefusal),
    /// Memory ran out.
    Memory,
}

impl From<AllocError> for ItemFault {
    ghost use Rattle.std.specs.Prelude.{◌≡◌};
    ghost use Rattle.document_rows.specs.declared.fault.ItemFault.TheVariants.{Memory};

    ghost from_gives = { λ _ fault. fault ≡ Memory };

    fn from(_error: AllocError) -> ItemFault {
        ItemFault::Memory
    }
}
