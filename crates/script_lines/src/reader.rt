//! The next entry of a script.
ghost use Rattle.std.specs.Prelude.{◌≡◌, ◌≤◌, ◌<◌, ℕ, List, None, Some, Ok, Err, IfOk, IfNone, OnOk, OnSome, length};
ghost use Rattle.std.specs.Io.KnownBytes.{IsAtEnd};
ghost use Rattle.agg_base.specs.Lines.{source_of, source_name, kept, position, Gave};
ghost use Rattle.agg_base.specs.Outside.{Rose};
ghost use Rattle.agg_model.specs.declared.limits.TheConstants.{MAX_LINE};
ghost use Rattle.agg_model.specs.Lines.{Line};
ghost use Rattle.agg_reading.specs.Entries.{Entries, body_of};
ghost use Rattle.agg_reading.specs.Entries.{Entry as Defined};
ghost use Rattle.script_lines.specs.Steps.{place_of};
ghost use Rattle.script_lines.specs.declared.fault.ScriptFault.TheVariants.{Read};
ghost use Rattle.script_lines.specs.Reading.{behind, GoesOn, HasRead, Heads, Bodies, Reads, IsFormed, IsFormedHeader};

use crate::fault::ScriptFault;
use crate::header::{Header, header_of};
use crate::line::{is_empty_line, next_line, take_line};
use agg_base::{Lines, Source};
use agg_model::Bytes;
use agg_model::limits::MAX_INPUT;
use agg_model::script_refusal::MISSING_BODY;
use serde_json::Value;
use std::alloc::Global;

/// What stands in the third section of a script.
#[derive(Drop)]
pub enum Entry {
    /// The body of a search, its header read over.
    Body(Bytes),
    /// A settings line.
    Settings(Value),
}

/// The next header of a script, none at its end. Empty lines before it are passed over.
fn next_header<S: Source>(
    alloc: Global,
    lines: &mut Lines<'_, S>,
) -> Result<Option<Header>, ScriptFault>
    requires { kept lines.old ≡ None }
    ensures script { (bytes : List ℕ) (whole : List Line → Entries) (before : List Defined) →
        HasRead whole bytes before lines.old → Heads whole bytes before result lines.new }
    ensures formed { IfOk result IsFormedHeader }
    ensures fault { result ≡ Err Read → Rose (S.faults (source_of lines.old)) (S.faults (source_of lines.new)) }
    ensures never_falls { S.faults (source_of lines.old) ≤ S.faults (source_of lines.new) }
    ensures gave { Gave lines.old lines.new }
    ensures kept { OnOk result (kept lines.new ≡ None) }
    ensures same_source { source_name lines.new ≡ source_name lines.old }
    ensures moves { IfOk result (λ header. OnSome header (position lines.old < position lines.new)) }
    ensures end { IfOk result (λ header. IfNone header (IsAtEnd (S.left (source_of lines.new)))) }
    ensures within { OnOk result (position lines.new ≤ MAX_INPUT) }
{
    while let Some(line) = next_line(alloc, lines)? {
        if !is_empty_line(line.as_slice()) {
            let header = header_of(alloc, lines.line_number(), line.as_slice())?;
            return Ok(Some(header));
        }
    }
    Ok(None)
}

/// The body of a search, behind its header.
fn next_body<S: Source>(alloc: Global, lines: &mut Lines<'_, S>) -> Result<Bytes, ScriptFault>
    requires { kept lines.old ≡ None }
    ensures script { (bytes : List ℕ) (whole : List Line → Entries) (before : List Defined) →
        GoesOn whole bytes (λ later. behind before (body_of (place_of lines.old) later)) lines.old → Bodies whole bytes before result lines.new }
    ensures short { IfOk result (λ text. length text ≤ MAX_LINE) }
    ensures fault { result ≡ Err Read → Rose (S.faults (source_of lines.old)) (S.faults (source_of lines.new)) }
    ensures never_falls { S.faults (source_of lines.old) ≤ S.faults (source_of lines.new) }
    ensures gave { Gave lines.old lines.new }
    ensures kept { OnOk result (kept lines.new ≡ None) }
    ensures same_source { source_name lines.new ≡ source_name lines.old }
    ensures moves { OnOk result (position lines.old < position lines.new) }
    ensures within { position lines.new ≤ MAX_INPUT }
{
    take_line(alloc, lines, MISSING_BODY)
}

/// The next entry of the third section of a script, none at its end. Empty lines where a header is due are passed over; a
/// body may be empty.
///
/// A line that breaks a rule is refused with one of `agg_model::script_refusal`: it is too long, beyond the greatest input,
/// or no JSON object where a header is due; and a header without a body line, at its own line. Where the source fails, the
/// whole lines of what was read have no further entry. It takes memory for the entry, and time in proportion to the bytes
/// read.
pub fn next_entry<S: Source>(
    alloc: Global,
    lines: &mut Lines<'_, S>,
) -> Result<Option<Entry>, ScriptFault>
    requires { kept lines.old ≡ None }

    // Where the source tells its bytes, by the entries that were read before.
    ensures script { (bytes : List ℕ) (whole : List Line → Entries) (before : List Defined) →
        HasRead whole bytes before lines.old → Reads whole bytes before result lines.new }

    ensures formed { IfOk result IsFormed }
    ensures fault { result ≡ Err Read → Rose (S.faults (source_of lines.old)) (S.faults (source_of lines.new)) }
    ensures never_falls { S.faults (source_of lines.old) ≤ S.faults (source_of lines.new) }
    ensures gave { Gave lines.old lines.new }
    ensures kept { OnOk result (kept lines.new ≡ None) }
    ensures same_source { source_name lines.new ≡ source_name lines.old }
    ensures moves { IfOk result (λ entry. OnSome entry (position lines.old < position lines.new)) }
    ensures end { IfOk result (λ entry. IfNone entry (IsAtEnd (S.left (source_of lines.new)))) }
    ensures within { OnOk result (position lines.new ≤ MAX_INPUT) }
{
    let Some(header) = next_header(alloc, lines)? else {
        return Ok(None);
    };
    match header {
        Header::Search => Ok(Some(Entry::Body(next_body(alloc, lines)?))),
        Header::Settings(value) => Ok(Some(Entry::Settings(value))),
    }
}
