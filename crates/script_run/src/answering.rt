//! The answer to a script that was loaded, and to a whole input.
ghost use Rattle.std.specs.Prelude.{◌≡◌, ◌≤◌, ◌≢◌, ℕ, List as Items, Option, Some, None, Ok};
ghost use Rattle.std.specs.Io.KnownBytes.{IsAtEnd};
ghost use Rattle.agg_base.specs.Lines.{source_of, source_name, kept, unread, bytes_read, position, has_ended, Gave};
ghost use Rattle.agg_base.specs.Outside.{Rose};
ghost use Rattle.agg_bulk.specs.Indexing.{IsLoaded};
ghost use Rattle.agg_reading.specs.Lines.{start};
ghost use Rattle.agg_settings.specs.Ranges.{AreInRange};
ghost use Rattle.script_answers.specs.declared.end.ScriptEnd.TheVariants as script;
ghost use Rattle.script_lines.specs.Steps.{place_of};
ghost use Rattle.script_answers.specs.Outputs.{so_far};
ghost use Rattle.script_run.specs.Charged.{IsCharged};
ghost use Rattle.script_run.specs.Ends.{status_of as status_at};
ghost use Rattle.script_run.specs.Runs.{WroteOf};
ghost use Rattle.script_run.specs.declared.status.Status.TheVariants as status;

use crate::loading::{end_loading, ended};
use crate::opening::Opens;
use crate::status::Status;
use crate::writing::write_items;
use agg_base::{Lines, Sink, Source};
use agg_bulk::{Loaded, load};
use agg_listen::{Audience, Listener};
use agg_model::Settings;
use script_answers::{ScriptEnd, answer_script};
use std::alloc::Global;
use std::thread::Threads;
use worker_gate::Gate;

/// The status of a run whose third section ended so.
fn status_of(end: ScriptEnd) -> Status
    ensures { result ≡ status_at end }
{
    match end {
        ScriptEnd::Finished => Status::Finished,
        ScriptEnd::Refused => Status::Refused,
        ScriptEnd::Read => Status::ReadFault,
        ScriptEnd::Write => Status::WriteFault,
        ScriptEnd::Memory => Status::Memory,
    }
}

/// Answers a script whose first two sections were loaded: the line of the bulk actions, and those of the third section.
fn answer_loaded<R: Threads + Sync, S: Source, K: Sink, L: Listener, A: Opens>(
    rt: &R,
    alloc: Global,
    lines: &mut Lines<'_, S>,
    sink: &mut K,
    audience: &mut Audience<L>,
    settings: Settings,
    loaded: Loaded,
    gate: &dyn Gate,
) -> Status
    requires kept { kept lines.old ≡ None }
    requires in_range { AreInRange settings }
    requires takes { A.takes settings }
    requires charged { IsCharged settings loaded.index loaded.words loaded.pass }
    ensures output { (bytes before : Items ℕ) →
        IsLoaded bytes (record { index = loaded.index; items = loaded.items })
        (place_of lines.old) (unread lines.old) (position lines.old) (has_ended lines.old) →
        K.written sink.old ≡ Some before → WroteOf settings bytes (bytes_read lines.new) result
        (so_far (Some before) audience.old) (so_far (K.written sink.new) audience.new) }
    ensures finished { result ≡ status.Finished → IsAtEnd (S.left (source_of lines.new)) }
    ensures read_fault { result ≡ status.ReadFault → Rose (S.faults (source_of lines.old)) (S.faults (source_of lines.new)) }
    ensures write_fault { result ≡ status.WriteFault → Rose (K.faults sink.old) (K.faults sink.new) }
    ensures reads_never_fall { S.faults (source_of lines.old) ≤ S.faults (source_of lines.new) }
    ensures writes_never_fall { K.faults sink.old ≤ K.faults sink.new }
    ensures no_usage { result ≢ status.Usage }
    ensures gave { Gave lines.old lines.new }
    ensures same_source { source_name lines.new ≡ source_name lines.old }
{
    let Loaded {
        index,
        items,
        words,
        pass,
    } = loaded;
    let is_generated = settings.generate.is_some();
    if let Err(stop) = write_items(alloc, sink, audience, &index.name, &items, is_generated) {
        return ended(Err(stop), Status::Memory);
    }
    drop(items);
    let answerer = A::open(index, words, pass, settings);
    status_of(answer_script(rt, alloc, lines, sink, audience, answerer, &settings, gate))
}

/// Answers a whole script, from its start.
pub(crate) fn answer_lines<R: Threads + Sync, S: Source, K: Sink, L: Listener, A: Opens>(
    rt: &R,
    alloc: Global,
    lines: &mut Lines<'_, S>,
    sink: &mut K,
    audience: &mut Audience<L>,
    settings: Settings,
    gate: &dyn Gate,
) -> Status
    requires kept { kept lines.old ≡ None }
    requires start { place_of lines.old ≡ start }
    requires in_range { AreInRange settings }
    requires takes { A.takes settings }
    ensures output { (bytes before : Items ℕ) → unread lines.old ≡ Some bytes → K.written sink.old ≡ Some before →
        WroteOf settings bytes (bytes_read lines.new) result (so_far (Some before) audience.old) (so_far (K.written sink.new) audience.new) }
    ensures finished { result ≡ status.Finished → IsAtEnd (S.left (source_of lines.new)) }
    ensures read_fault { result ≡ status.ReadFault → Rose (S.faults (source_of lines.old)) (S.faults (source_of lines.new)) }
    ensures write_fault { result ≡ status.WriteFault → Rose (K.faults sink.old) (K.faults sink.new) }
    ensures writes_never_fall { K.faults sink.old ≤ K.faults sink.new }
    ensures no_usage { result ≢ status.Usage }
    ensures gave { Gave lines.old lines.new }
    ensures same_source { source_name lines.new ≡ source_name lines.old }
{
    match load(alloc, lines, &settings) {
        Ok(loaded) => answer_loaded::<R, S, K, L, A>(
            rt, alloc, lines, sink, audience, settings, loaded, gate,
        ),
        Err(end) => end_loading(alloc, sink, audience, &end),
    }
}
