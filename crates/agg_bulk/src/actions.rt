//! The bulk section, action by action.
ghost use Rattle.std.specs.Prelude.{◌≡◌, ◌≢◌, ◌≤◌, ◌<◌, ℕ, [], List, None, Some, Ok, Err, IfOk, IsTrue, is_some, OnOk};
ghost use Rattle.agg_base.specs.Lines.{source_of as source_behind, source_name, kept, handed, Gave};
ghost use Rattle.agg_base.specs.Outside.{Rose};
ghost use Rattle.agg_reading.specs.Script.{Loading, actions, is_delete, source_of, with_action};
ghost use Rattle.agg_reading.specs.declared.parts.Heading.{Heading as AnyHeading};
ghost use Rattle.script_lines.specs.Steps.{place_of};
ghost use Rattle.script_lines.specs.declared.fault.ScriptFault.TheVariants.{Read};
ghost use Rattle.agg_bulk.specs.Loading.{GoesOn, Steps, after_line, after_heading, after_action, is_action_fault, fault_at};

use action_lines::action_with;
use agg_base::{Lines, Source};
use agg_model::limits::MAX_ACTIONS;
use agg_model::script_refusal::{
    MALFORMED_ACTION, MISSING_SECTION, MISSING_SOURCE, TOO_MANY_DOCUMENTS, UPDATE_NOT_SUPPORTED,
};
use agg_model::{Action, ActionKind, Bytes};
use agg_reading::{Heading, RequestFault};
use document_rows::Scratch;
use script_lines::{ScriptFault, ScriptRefusal, is_empty_line, refused, refused_here, take_line};
use std::alloc::Global;

/// Why the action line that was read last ends the script.
fn refused_action<S: Source>(lines: &Lines<'_, S>, fault: RequestFault) -> ScriptFault
    requires { IsTrue (is_action_fault fault) }
    ensures { result ≡ fault_at (handed lines.now) fault }
{
    match fault {
        RequestFault::NotJson => unreachable!(),
        RequestFault::Memory => ScriptFault::Memory,
        RequestFault::Bad { code, path } => ScriptFault::Refused(ScriptRefusal {
            number: if code == u16::from(UPDATE_NOT_SUPPORTED) {
                UPDATE_NOT_SUPPORTED
            } else {
                MALFORMED_ACTION
            },
            line: lines.line_number(),
            path,
        }),
    }
}

/// Reads the line of one more action, where `taken` came before it, or the empty line that ends the bulk section. The
/// scratch is kept from one line to the next.
fn next_heading<S: Source>(
    alloc: Global,
    lines: &mut Lines<'_, S>,
    index: &str,
    taken: usize,
    scratch: &mut Scratch,
) -> Result<Option<Heading>, ScriptFault>
    requires { kept lines.old ≡ None }
    ensures script { (bytes : List ℕ) (now : Loading) → now.index.name ≡ index.now → now.actions ≡ taken →
        GoesOn bytes (actions now (place_of lines.old)) lines.old →
        Steps bytes result (after_heading now (place_of lines.new)) lines.new }
    ensures room { IfOk result (λ heading. IsTrue (is_some heading) → taken < MAX_ACTIONS) }
    ensures fault { result ≡ Err Read → Rose (S.faults (source_behind lines.old)) (S.faults (source_behind lines.new)) }
    ensures never_falls { S.faults (source_behind lines.old) ≤ S.faults (source_behind lines.new) }
    ensures gave { Gave lines.old lines.new }
    ensures kept { OnOk result (kept lines.new ≡ None) }
    ensures same_source { source_name lines.new ≡ source_name lines.old }
{
    let line = take_line(alloc, lines, MISSING_SECTION)?;
    if is_empty_line(line.as_slice()) {
        return Ok(None);
    }
    if taken >= MAX_ACTIONS {
        return Err(refused_here(alloc, lines, TOO_MANY_DOCUMENTS));
    }
    match action_with(alloc, index, taken as u64, line.as_slice(), scratch) {
        Ok(heading) => Ok(Some(heading)),
        Err(fault) => Err(refused_action(lines, fault)),
    }
}

/// Reads the source line of an action that is no delete.
fn source_line<S: Source>(alloc: Global, lines: &mut Lines<'_, S>) -> Result<Bytes, ScriptFault>
    requires { kept lines.old ≡ None }
    ensures script { (bytes : List ℕ) (now : Loading) (heading : AnyHeading) →
        GoesOn bytes (source_of heading now (place_of lines.old)) lines.old →
        Steps bytes result (λ text. actions (with_action heading text now) (place_of lines.new)) lines.new }
    ensures fault { result ≡ Err Read → Rose (S.faults (source_behind lines.old)) (S.faults (source_behind lines.new)) }
    ensures never_falls { S.faults (source_behind lines.old) ≤ S.faults (source_behind lines.new) }
    ensures gave { Gave lines.old lines.new }
    ensures kept { OnOk result (kept lines.new ≡ None) }
    ensures same_source { source_name lines.new ≡ source_name lines.old }
{
    // A missing source line is refused at the line of its action.
    let action_line = lines.line_number();
    let line = take_line(alloc, lines, MISSING_SOURCE)?;
    if is_empty_line(line.as_slice()) {
        Err(refused(alloc, MISSING_SOURCE, action_line))
    } else {
        Ok(line)
    }
}

fn is_delete(kind: ActionKind) -> bool
    ensures { result ≡ is_delete kind }
{
    match kind {
        ActionKind::Delete => true,
        ActionKind::Index | ActionKind::Create => false,
    }
}

fn no_bytes(alloc: Global) -> Bytes
    ensures { result ≡ [] }
{
    Bytes::from_vec(Vec::new(alloc))
}

/// Reads the source line of an action; a delete has none.
fn source<S: Source>(
    alloc: Global,
    lines: &mut Lines<'_, S>,
    kind: ActionKind,
) -> Result<Bytes, ScriptFault>
    requires { kept lines.old ≡ None }
    ensures script { (bytes : List ℕ) (now : Loading) (heading : AnyHeading) → heading.kind ≡ kind →
        GoesOn bytes (after_line heading now (place_of lines.old)) lines.old →
        Steps bytes result (λ text. actions (with_action heading text now) (place_of lines.new)) lines.new }
    ensures fault { result ≡ Err Read → Rose (S.faults (source_behind lines.old)) (S.faults (source_behind lines.new)) }
    ensures never_falls { S.faults (source_behind lines.old) ≤ S.faults (source_behind lines.new) }
    ensures gave { Gave lines.old lines.new }
    ensures kept { OnOk result (kept lines.new ≡ None) }
    ensures same_source { source_name lines.new ≡ source_name lines.old }
{
    if is_delete(kind) {
        return Ok(no_bytes(alloc));
    }
    source_line(alloc, lines)
}

/// Reads one more action, where `taken` came before it, or the empty line that ends the bulk section. The scratch is kept
/// from one action to the next.
pub(crate) fn next_action<S: Source>(
    alloc: Global,
    lines: &mut Lines<'_, S>,
    index: &str,
    taken: usize,
    scratch: &mut Scratch,
) -> Result<Option<Action>, ScriptFault>
    requires { kept lines.old ≡ None }
    ensures script { (bytes : List ℕ) (now : Loading) → now.index.name ≡ index.now → now.actions ≡ taken →
        GoesOn bytes (actions now (place_of lines.old)) lines.old →
        Steps bytes result (after_action now (place_of lines.new)) lines.new }
    ensures room { IfOk result (λ action. IsTrue (is_some action) → taken < MAX_ACTIONS) }
    ensures fault { result ≡ Err Read → Rose (S.faults (source_behind lines.old)) (S.faults (source_behind lines.new)) }
    ensures never_falls { S.faults (source_behind lines.old) ≤ S.faults (source_behind lines.new) }
    ensures gave { Gave lines.old lines.new }
    ensures kept { OnOk result (kept lines.new ≡ None) }
    ensures same_source { source_name lines.new ≡ source_name lines.old }
{
    let Some(heading) = next_heading(alloc, lines, index, taken, scratch)? else {
        return Ok(None);
    };
    let source = source(alloc, lines, heading.kind)?;
    let Heading { kind, id, routing } = heading;
    Ok(Some(Action {
        kind,
        id,
        routing,
        source,
    }))
}
