//! The next line of a script.
ghost use Rattle.std.specs.Prelude.{◌≡◌, ◌≢◌, ◌≤◌, ◌<◌, ◌+◌, ℕ, [], List, None, Some, Ok, Err, IfOk, IfErr, IfSome, IfNone, OnOk, OnSome, length};
ghost use Rattle.std.specs.Io.KnownBytes.{IsAtEnd};
ghost use Rattle.agg_base.specs.Lines.{source_of, source_name, kept, handed, position, unread, bytes_read, has_ended, Gave};
ghost use Rattle.agg_base.specs.Outside.{Rose};
ghost use Rattle.agg_model.specs.declared.limits.TheConstants.{MAX_LINE};
ghost use Rattle.agg_model.specs.Lines.{Line};
ghost use Rattle.agg_reading.specs.Lines.{is_empty_line};
ghost use Rattle.script_lines.specs.Handed.{IsHanded};
ghost use Rattle.script_lines.specs.Steps.{place_of, rest_of, fault_of, Reads, Hands, Takes, TakesFront};
ghost use Rattle.script_lines.specs.declared.fault.ScriptFault.TheVariants.{Read, Refused};

use crate::fault::{ScriptFault, ScriptRefusal};
use agg_base::{LineFault, Lines, Source};
use agg_model::limits::MAX_INPUT;
use agg_model::script_refusal::{INPUT_TOO_LONG, LINE_TOO_LONG};
use agg_model::{Bytes, Text};
use std::alloc::Global;

/// Whether a line has no byte, or only a carriage return.
pub fn is_empty_line(line: &[u8]) -> bool
    ensures { result ≡ is_empty_line line.now }
{
    line.is_empty() || line == b"\r".as_slice()
}

/// The refusal of a line, without a pointer.
pub fn refused(alloc: Global, number: u8, line: u64) -> ScriptFault
    ensures { result ≡ Refused (record { number = number; line = line; path = [] }) }
{
    ScriptFault::Refused(ScriptRefusal {
        number,
        line,
        path: Text::from_string(String::new(alloc)),
    })
}

/// Why a script ends at a line that can't be read.
fn fault_of(alloc: Global, fault: LineFault, line: u64) -> ScriptFault
    ensures { result ≡ fault_of fault line }
{
    match fault {
        LineFault::Read => ScriptFault::Read,
        LineFault::LineTooLong => refused(alloc, LINE_TOO_LONG, line),
        LineFault::InputTooLong => refused(alloc, INPUT_TOO_LONG, line),
        LineFault::Memory => ScriptFault::Memory,
    }
}

/// The next line of a script, none at its end. A line that is too long, or beyond the greatest input, is refused with
/// `LINE_TOO_LONG` or `INPUT_TOO_LONG`.
///
/// Where the source fails, all whole lines of what was read are handed out.
pub fn next_line<S: Source>(
    alloc: Global,
    lines: &mut Lines<'_, S>,
) -> Result<Option<Bytes>, ScriptFault>
    requires { kept lines.old ≡ None }

    // Where the source tells what it has left.
    ensures line { IfSome (rest_of lines.old) (λ rest. Reads (place_of lines.old) rest result (place_of lines.new) (rest_of lines.new)) }
    ensures front { (bytes : List ℕ) (front : List Line) → IsHanded bytes front (unread lines.old) (position lines.old) (has_ended lines.old) → Hands bytes front result (unread lines.new) (position lines.new) (has_ended lines.new) (bytes_read lines.new) }

    ensures short { IfOk result (λ line. IfSome line (λ text. length text ≤ MAX_LINE)) }
    ensures fault { result ≡ Err Read → Rose (S.faults (source_of lines.old)) (S.faults (source_of lines.new)) }
    ensures never_falls { S.faults (source_of lines.old) ≤ S.faults (source_of lines.new) }
    ensures gave { Gave lines.old lines.new }
    ensures kept { OnOk result (kept lines.new ≡ None) }
    ensures same_source { source_name lines.new ≡ source_name lines.old }
    ensures moves { IfOk result (λ line. OnSome line (position lines.old < position lines.new)) }
    ensures end { IfOk result (λ line. IfNone line (IsAtEnd (S.left (source_of lines.new)))) }
    ensures within { position lines.new ≤ MAX_INPUT }
{
    match lines.next_line(alloc) {
        Ok(line) => Ok(line),
        Err(fault) => Err(fault_of(alloc, fault, lines.line_number() + 1)),
    }
}

/// The refusal of the line that was read last, or of the end of the input behind it.
pub fn refused_here<S: Source>(alloc: Global, lines: &Lines<'_, S>, number: u8) -> ScriptFault
    ensures { result ≡ Refused (record { number = number; line = handed lines.now; path = [] }) }
{
    refused(alloc, number, lines.line_number())
}

/// The next line of a script, where there has to be one: an input that ends before it is refused with `missing` at its
/// last line.
pub fn take_line<S: Source>(
    alloc: Global,
    lines: &mut Lines<'_, S>,
    missing: u8,
) -> Result<Bytes, ScriptFault>
    requires { kept lines.old ≡ None }

    // Where the source tells what it has left.
    ensures line { IfSome (rest_of lines.old) (λ rest. Takes missing (place_of lines.old) rest result (place_of lines.new) (rest_of lines.new)) }
    ensures front { (bytes : List ℕ) (front : List Line) → IsHanded bytes front (unread lines.old) (position lines.old) (has_ended lines.old) → TakesFront bytes front result (unread lines.new) (position lines.new) (has_ended lines.new) (bytes_read lines.new) }

    ensures short { IfOk result (λ text. length text ≤ MAX_LINE) }
    ensures fault { result ≡ Err Read → Rose (S.faults (source_of lines.old)) (S.faults (source_of lines.new)) }
    ensures never_falls { S.faults (source_of lines.old) ≤ S.faults (source_of lines.new) }
    ensures gave { Gave lines.old lines.new }
    ensures kept { OnOk result (kept lines.new ≡ None) }
    ensures same_source { source_name lines.new ≡ source_name lines.old }
    ensures moves { OnOk result (position lines.old < position lines.new) }
    ensures within { position lines.new ≤ MAX_INPUT }
{
    match next_line(alloc, lines)? {
        Some(line) => Ok(line),
        None => Err(refused_here(alloc, lines, missing)),
    }
}
