//! Lines to the sink.
ghost use Rattle.std.specs.Prelude.{◌≡◌, ◌≤◌, ◌<◌, ◌+◌, ◌∷◌, [], ℕ, map, length, take, false, Err, IfErr, OnOk, OnErr, IsTrue};
ghost use Rattle.std.specs.Io.KnownBytes.{append_known};
ghost use Rattle.agg_base.specs.Outside.{Rose};
ghost use Rattle.agg_model.specs.declared.outcome.Answered.{Answered as AnyAnswered};
ghost use Rattle.agg_spec.specs.Written.{Line, answer, statistics, answer_text, line_text, ended_line, status_of, has_memory, is_printed};
ghost use Rattle.agg_spec.specs.Output.{refusal_line};
ghost use Rattle.script_lines.specs.Faults.{refusal_of};
ghost use Rattle.script_answers.specs.Outputs.{so_far, is_answer};
ghost use Rattle.script_answers.specs.Puts.{Puts};

use crate::stop::Stop;
use agg_base::{Failed, Sink, write_all};
use agg_listen::{Audience, Listener};
use agg_model::{Answered, List, Outcome, Text, Totals};
use agg_response::{exception, refusal, script_line, stats_line};
use script_lines::ScriptRefusal;
use std::alloc::Global;

/// Writes a text, and behind it a newline.
fn write_ended<K: Sink>(sink: &mut K, text: &Text) -> Result<(), Failed>
    ensures all { OnOk result (K.written sink.new ≡ append_known (K.written sink.old) (ended_line text.now)) }
    ensures front { OnErr result ((n : ℕ) × (n < length text.now + 1)
        × (K.written sink.new ≡ append_known (K.written sink.old) (take n (ended_line text.now)))) }
    ensures fault { OnErr result (Rose (K.faults sink.old) (K.faults sink.new)) }
    ensures never_falls { K.faults sink.old ≤ K.faults sink.new }
{
    write_all(sink, text.as_str().as_bytes())?;
    write_all(sink, b"\n")
}

/// Writes the text of a line that is no answer to a search, with its newline. No listener is told of it. Where the sink fails, a
/// front of the line stands that is not all of it, and the answer is `Stop::Write`. It takes no memory.
pub fn write_line<K: Sink, L: Listener>(
    sink: &mut K,
    audience: &mut Audience<L>,
    text: &Text,
) -> Result<(), Stop>
    ensures puts { (line : Line) → IsTrue (is_printed line) → is_answer line ≡ false → line_text line ≡ text.now →
        Puts (so_far (K.written sink.old) audience.old) (so_far (K.written sink.new) audience.new) (line ∷ []) result }
    ensures fault { result ≡ Err Stop.Write → Rose (K.faults sink.old) (K.faults sink.new) }
    ensures never_falls { K.faults sink.old ≤ K.faults sink.new }
    ensures writes_only { IfErr result (λ stop. stop ≡ Stop.Write) }
{
    match write_ended(sink, text) {
        Ok(()) => {
            audience.pass();
            Ok(())
        }
        Err(Failed) => Err(Stop::Write),
    }
}

/// Writes the text of an answer with its newline, and then tells the listeners of it. They are not told where the line was not
/// written whole.
fn write_told<K: Sink, L: Listener>(
    sink: &mut K,
    audience: &mut Audience<L>,
    text: &Text,
    status: u16,
) -> Result<(), Stop>
    ensures puts { (a : AnyAnswered) → IsTrue (has_memory a.outcome) → answer_text a.outcome a.failures ≡ text.now → status_of a.outcome ≡ status →
        Puts (so_far (K.written sink.old) audience.old) (so_far (K.written sink.new) audience.new) (answer a ∷ []) result }
    ensures fault { result ≡ Err Stop.Write → Rose (K.faults sink.old) (K.faults sink.new) }
    ensures never_falls { K.faults sink.old ≤ K.faults sink.new }
{
    match write_ended(sink, text) {
        Ok(()) => {
            audience.tell(status, text.as_str().len() as u64);
            Ok(())
        }
        Err(Failed) => Err(Stop::Write),
    }
}

/// Writes the line of an answer, and tells the listeners; want of memory in a search has none.
fn write_answer<K: Sink, L: Listener>(
    alloc: Global,
    sink: &mut K,
    audience: &mut Audience<L>,
    answered: &Answered,
) -> Result<(), Stop>
    ensures puts { Puts (so_far (K.written sink.old) audience.old) (so_far (K.written sink.new) audience.new) (answer answered.now ∷ []) result }
    ensures fault { result ≡ Err Stop.Write → Rose (K.faults sink.old) (K.faults sink.new) }
    ensures never_falls { K.faults sink.old ≤ K.faults sink.new }
{
    match &answered.outcome {
        Outcome::Response(text) => write_told(sink, audience, text, 200),
        Outcome::Refused(refused) => {
            let text = refusal(alloc, refused, &answered.failures)?;
            write_told(sink, audience, &text, 400)
        }
        Outcome::Tripped(tripped) => {
            let text = exception(alloc, tripped, "search", 429, &answered.failures)?;
            write_told(sink, audience, &text, 429)
        }
        Outcome::Memory => Err(Stop::Memory),
    }
}

/// Writes the lines of answers in their order, up to one that wanted memory, which has no line. Once a line is written, the
/// listeners are told of it.
///
/// Where the sink fails or memory runs out, the lines before stand whole; of the line at which the sink failed stands a front that
/// is not all of it, and of one that memory was wanting for, nothing. Takes time and memory linear in the texts, and drops each
/// line once it is written.
pub fn write_answers<K: Sink, L: Listener>(
    alloc: Global,
    sink: &mut K,
    audience: &mut Audience<L>,
    answers: &List<Answered>,
) -> Result<(), Stop>
    ensures puts { Puts (so_far (K.written sink.old) audience.old) (so_far (K.written sink.new) audience.new) (map answer answers.now) result }
    ensures fault { result ≡ Err Stop.Write → Rose (K.faults sink.old) (K.faults sink.new) }
    ensures never_falls { K.faults sink.old ≤ K.faults sink.new }
{
    for answered in answers.as_slice() {
        write_answer(alloc, sink, audience, answered)?;
    }
    Ok(())
}

/// Writes the line of the statistics; where the sink fails or memory runs out, as `write_answers` does. Takes time and memory
/// linear in the line.
pub fn write_statistics<K: Sink, L: Listener>(
    alloc: Global,
    sink: &mut K,
    audience: &mut Audience<L>,
    totals: &Totals,
) -> Result<(), Stop>
    ensures puts { Puts (so_far (K.written sink.old) audience.old) (so_far (K.written sink.new) audience.new) (statistics totals.now ∷ []) result }
    ensures fault { result ≡ Err Stop.Write → Rose (K.faults sink.old) (K.faults sink.new) }
    ensures never_falls { K.faults sink.old ≤ K.faults sink.new }
{
    write_line(sink, audience, &stats_line(alloc, totals)?)
}

/// Writes the line that refuses the script; where the sink fails or memory runs out, as `write_answers` does. Takes time and
/// memory linear in the line.
pub fn write_refusal<K: Sink, L: Listener>(
    alloc: Global,
    sink: &mut K,
    audience: &mut Audience<L>,
    refusal: &ScriptRefusal,
) -> Result<(), Stop>
    ensures puts { Puts
        (so_far (K.written sink.old) audience.old) (so_far (K.written sink.new) audience.new) (refusal_line (refusal_of refusal.now) ∷ []) result }
    ensures fault { result ≡ Err Stop.Write → Rose (K.faults sink.old) (K.faults sink.new) }
    ensures never_falls { K.faults sink.old ≤ K.faults sink.new }
{
    write_line(
        sink,
        audience,
        &script_line(alloc, refusal.number, refusal.line, &refusal.path)?,
    )
}
