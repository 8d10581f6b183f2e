//! Why a script is read no further.
use agg_model::Text;
use std::alloc::AllocError;

/// Why a script is refused, and where.
#[derive(Drop, PartialEq, Eq)]
pub struct ScriptRefusal {
    /// One of `agg_model::script_refusal`.
    pub number: u8,
    /// The line, counted from 1; 0 where there is none.
    pub line: u64,
    /// For `BAD_INDEX_LINE` the JSON pointer of what is refused (RFC 6901); else empty.
    pub path: Text,
}

/// Why a script is read no further.
#[derive(Drop, PartialEq, Eq)]
pub enum ScriptFault {
    /// The script is refused.
    Refused(ScriptRefusal),
    /// The source failed.
    Read,
    /// Memory ran out.
    Memory,
}

impl From<AllocError> for ScriptFault {
    ghost use Rattle.std.specs.Prelude.{◌≡◌};
    ghost use Rattle.script_lines.specs.declared.fault.ScriptFault.TheVariants.{Memory};

    ghost from_gives = { λ _ fault. fault ≡ Memory };

    fn from(_error: AllocError) -> ScriptFault {
        ScriptFault::Memory
    }
}
