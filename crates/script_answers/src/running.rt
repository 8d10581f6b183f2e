//! A whole third section, entry by entry.
ghost use Rattle.std.specs.Prelude.{◌≡◌, ◌≤◌, ℕ, List as Items, [], None, take};
ghost use Rattle.std.specs.Io.KnownBytes.{IsAtEnd};
ghost use Rattle.agg_base.specs.Lines.{source_of, source_name, kept, bytes_read, Gave};
ghost use Rattle.agg_base.specs.Outside.{Rose};
ghost use Rattle.agg_model.specs.Lines.{Line, lines as lines_of};
ghost use Rattle.agg_reading.specs.Entries.{Entries};
ghost use Rattle.agg_settings.specs.Changes.{changed};
ghost use Rattle.agg_settings.specs.Ranges.{AreInRange};
ghost use Rattle.agg_spec.specs.Answers.{Recent};
ghost use Rattle.agg_spec.specs.Output.{whole_lines};
ghost use Rattle.script_lines.specs.Reading.{HasRead};
ghost use Rattle.script_lines.specs.declared.fault.ScriptFault.TheVariants as script_fault;
ghost use Rattle.script_answers.specs.Ends.{end_of, EndsAt};
ghost use Rattle.script_answers.specs.Answering.{MayBe};
ghost use Rattle.script_answers.specs.Outputs.{so_far};
ghost use Rattle.script_answers.specs.Steps.{Wrote};
ghost use Rattle.script_answers.specs.declared.end.ScriptEnd.TheVariants as ended;

use crate::answerer::Answerer;
use crate::end::ScriptEnd;
use crate::step::{Waiting, finish, take_entry};
use crate::stop::Stop;
use crate::writing::write_refusal;
use agg_base::{Lines, Sink, Source};
use agg_listen::{Audience, Listener};
use agg_model::{List, Settings};
use script_lines::{ScriptFault, next_entry};
use std::alloc::Global;
use std::thread::Threads;
use worker_gate::Gate;

/// How a script ends where a line was not written whole.
fn stopped(stop: Stop) -> ScriptEnd
    ensures { result ≡ end_of stop }
{
    match stop {
        Stop::Write => ScriptEnd::Write,
        Stop::Memory => ScriptEnd::Memory,
    }
}

/// How a script ends where there is no further entry, with the line of its refusal.
fn end_at<K: Sink, L: Listener>(
    alloc: Global,
    sink: &mut K,
    audience: &mut Audience<L>,
    fault: &ScriptFault,
) -> ScriptEnd
    ensures ends { EndsAt fault.now (so_far (K.written sink.old) audience.old) (so_far (K.written sink.new) audience.new) result }
    ensures read { result ≡ ended.Read → fault.now ≡ script_fault.Read }
    ensures fault { result ≡ ended.Write → Rose (K.faults sink.old) (K.faults sink.new) }
    ensures never_falls { K.faults sink.old ≤ K.faults sink.new }
{
    match fault {
        ScriptFault::Read => ScriptEnd::Read,
        ScriptFault::Memory => ScriptEnd::Memory,
        ScriptFault::Refused(refusal) => match write_refusal(alloc, sink, audience, refusal) {
            Ok(()) => ScriptEnd::Refused,
            Err(stop) => stopped(stop),
        },
    }
}

/// Answers the third section of a script, behind the lines that were read before, and writes a line for each search, one for
/// each settings line, and the statistics at the end. `words` are the settings of the program's words.
///
/// Searches are answered in waves of the width of the words; a settings line and the end of the script end a wave that is not
/// full. Where the script is refused, or the source fails, the searches of a wave that is not full are not answered; a refusal
/// is the last line. Where the sink fails, whole lines and a front of the next one were written, and where memory runs out,
/// also in a search, whole lines.
///
/// The listeners are told of each answer once its line was written whole. Workers that share tasks pass the gate.
///
/// Beside what the searches take, it holds the bodies of one wave.
pub fn answer_script<R: Threads + Sync, S: Source, K: Sink, L: Listener, A: Answerer>(
    rt: &R,
    alloc: Global,
    lines: &mut Lines<'_, S>,
    sink: &mut K,
    audience: &mut Audience<L>,
    answerer: A,
    words: &Settings,
    gate: &dyn Gate,
) -> ScriptEnd
    requires kept { kept lines.old ≡ None }
    requires in_range { AreInRange words.now }
    requires wide { (A.in_force answerer).width ≡ words.now.width }

    // Where the source tells its bytes, by the entries of the whole input and by those of the whole lines that were read.
    ensures output { (recent : Recent) → MayBe (A.in_force answerer) (A.answered answerer) recent →
        (bytes : Items ℕ) (whole : Items Line → Entries) → HasRead whole bytes [] lines.old →
        Wrote changed words.now (A.index answerer) (A.columns answerer) recent (whole (lines_of bytes))
        (whole (whole_lines (take (bytes_read lines.new) bytes))) result (so_far (K.written sink.old) audience.old) (so_far (K.written sink.new) audience.new) }

    // Why each end comes.
    ensures finished { result ≡ ended.Finished → IsAtEnd (S.left (source_of lines.new)) }
    ensures read_fault { result ≡ ended.Read → Rose (S.faults (source_of lines.old)) (S.faults (source_of lines.new)) }
    ensures write_fault { result ≡ ended.Write → Rose (K.faults sink.old) (K.faults sink.new) }
    ensures reads_never_fall { S.faults (source_of lines.old) ≤ S.faults (source_of lines.new) }
    ensures gave { Gave lines.old lines.new }
    ensures writes_never_fall { K.faults sink.old ≤ K.faults sink.new }
    ensures same_source { source_name lines.new ≡ source_name lines.old }
{
    let mut waiting = Waiting {
        answerer,
        wave: List::new(alloc),
    };
    loop {
        match next_entry(alloc, lines) {
            Ok(Some(entry)) => match take_entry(
                rt, alloc, sink, audience, waiting, words, entry, gate,
            ) {
                Ok(now) => waiting = now,
                Err(stop) => return stopped(stop),
            },
            Ok(None) => {
                return match finish(rt, alloc, sink, audience, waiting, words, gate) {
                    Ok(()) => ScriptEnd::Finished,
                    Err(stop) => stopped(stop),
                };
            }
            Err(fault) => return end_at(alloc, sink, audience, &fault),
        }
    }
}
