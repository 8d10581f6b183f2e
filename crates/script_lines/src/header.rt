//! What a line is where a header is due.
ghost use Rattle.std.specs.Prelude.{◌≡◌, ◌≢◌, IfErr};
ghost use Rattle.script_lines.specs.Faults.{Gives};
ghost use Rattle.script_lines.specs.Headers.{header_at, change_in};
ghost use Rattle.script_lines.specs.declared.fault.ScriptFault.TheVariants.{Read};

use crate::fault::ScriptFault;
use crate::line::refused;
use agg_model::script_refusal::BAD_HEADER;
use agg_settings::is_settings_line;
use json_walk::reading;
use serde_json::Value;
use std::alloc::Global;

/// What a line is where a header is due.
#[derive(Drop)]
pub enum Header {
    /// The header of a search, whose body is the next line.
    Search,
    /// A settings line, which has no body.
    Settings(Value),
}

/// The header that the line of this number is. Bytes that are no JSON object are refused with `BAD_HEADER`.
#[tactic(auto, unfolding(crate::specs::Headers::header_at))]
pub fn header_of(alloc: Global, number: u64, line: &[u8]) -> Result<Header, ScriptFault>
    ensures header { Gives change_in result (header_at number line.now) }
    ensures reads_nothing { IfErr result (λ fault. fault ≢ Read) }
{
    let Some(value) = reading(alloc, line)? else {
        return Err(refused(alloc, BAD_HEADER, number));
    };
    if value.as_object().is_none() {
        return Err(refused(alloc, BAD_HEADER, number));
    }
    if is_settings_line(&value) {
        Ok(Header::Settings(value))
    } else {
        Ok(Header::Search)
    }
}
