//! Why loading ends without an index.
use agg_model::Tripped;
use script_lines::{ScriptFault, ScriptRefusal};
use std::alloc::AllocError;

/// Why loading ends without an index.
#[derive(Drop, PartialEq, Eq)]
pub enum LoadEnd {
    /// The script is refused.
    Script(ScriptRefusal),
    /// The source failed.
    Read,
    /// A breaker refused the charge of the columns.
    Columns(Tripped),
    /// Memory ran out.
    Memory,
}

impl From<AllocError> for LoadEnd {
    ghost use Rattle.std.specs.Prelude.{◌≡◌};
    ghost use Rattle.agg_bulk.specs.declared.end.LoadEnd.TheVariants.{Memory};

    ghost from_gives = { λ _ end. end ≡ Memory };

    fn from(_error: AllocError) -> LoadEnd {
        LoadEnd::Memory
    }
}
