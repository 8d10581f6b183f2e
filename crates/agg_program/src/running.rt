//! The top call.
ghost use Rattle.std.specs.Prelude.{◌≡◌, ◌≢◌, ℕ, List as Items, Some, None, IfOk, IfSome, IfNone, IsNone, IsErr, Ok, true};
ghost use Rattle.std.specs.Io.KnownBytes.{IsAtEnd};
ghost use Rattle.agg_base.specs.Outside.{Rose};
ghost use Rattle.agg_model.specs.declared.settings.Settings.{Settings};
ghost use Rattle.agg_program.specs.Arguments.{words_given};
ghost use Rattle.agg_program.specs.Listening.{alone};
ghost use Rattle.agg_settings.specs.Settings.{settings_of};
ghost use Rattle.script_answers.specs.Outputs.{so_far};
ghost use Rattle.script_run.specs.Inputs.{AskForNoInput};
ghost use Rattle.script_run.specs.Runs.{Runs};
ghost use Rattle.script_run.specs.Statuses.{IsExitStatus, IsOfRefusedWords};

use crate::arguments::words_of;
use agg_base::{Sink, Source};
use agg_listen::{Audience, Listener};
use agg_model::{List, Text};
use script_run::Status;
use std::alloc::{AllocError, Global};
use std::env::Args;
use std::io;
use std::thread::Threads;
use wave_answerer::Team;
use worker_gate::Gate;

/// Runs the program over a source and a sink, with as many workers and searches at a time as the words say, and answers its exit
/// status.
///
/// - 0: the input was read to its end, and all lines were written.
/// - 2: the words are not in the grammar; nothing is read.
/// - 3: the source failed; whole lines of the output were written. Not with a generated script.
/// - 4: the sink failed; a front of the output was written, and not all.
/// - 5: the script was refused; its error line is the last that was written.
/// - 6: the columns are beyond a limit; that is the one line.
/// - 7: memory ran out; whole lines of the output were written.
///
/// A generated script stands in the place of the input, which is not read.
///
/// Each listener of the audience is told of each answer to a search once its line was written whole. Workers that share the tasks of
/// searches pass the gate; nothing that is promised depends on it.
pub fn run<R: Threads + Sync, S: Source, K: Sink, L: Listener>(
    rt: &R,
    alloc: Global,
    words: &[Text],
    source: &mut S,
    sink: &mut K,
    audience: &mut Audience<L>,
    gate: &dyn Gate,
) -> u8
    // What was written and read, where the source and the sink tell their bytes: an output that is defined for these words, this
    // input and what was read of it. So for every number of workers and every order in which they come, each search is answered by the
    // whole reduction of the shards that did not fail, or by a refusal of a breaker that saw a total above its limit.
    ensures output { (input before : Items ℕ) → S.left source.old ≡ Some input → K.written sink.old ≡ Some before →
        Runs true words.now input (S.left source.new) result (so_far (Some before) audience.old) (so_far (K.written sink.new) audience.new) }

    // What is so whatever the source and the sink tell: where the words ask for no input the source is as it was, with its count of
    // faults; and which statuses there are.
    ensures unread { AskForNoInput (settings_of true words.now) → source.new ≡ source.old }
    ensures statuses { IsExitStatus result }
    ensures no_read_fault { AskForNoInput (settings_of true words.now) → result ≢ 3 }

    // Why each status comes.
    ensures finished { result ≡ 0 → (settings : Settings) → settings_of true words.now ≡ Ok settings →
        settings.generate ≡ None → IsAtEnd (S.left source.new) }
    ensures usage { result ≡ 2 → IsErr (settings_of true words.now) }
    ensures refused { IsErr (settings_of true words.now) → IsOfRefusedWords result }
    ensures read_fault { result ≡ 3 → Rose (S.faults source.old) (S.faults source.new) }
    ensures write_fault { result ≡ 4 → Rose (K.faults sink.old) (K.faults sink.new) }
{
    script_run::run::<R, S, K, L, Team>(rt, alloc, true, words, source, sink, audience, gate)
}

// The words, and one who listens.
fn prepare<L: Listener>(
    alloc: Global,
    arguments: io::Result<Args>,
    listener: L,
) -> Result<(List<Text>, Audience<L>), AllocError>
    ensures words { IfOk result (λ ready. words_given arguments ≡ Some ready.0) }
    ensures audience { IfOk result (λ ready. ready.1 ≡ alone (L.standing listener)) }
{
    let words = words_of(alloc, arguments)?;
    let mut listeners = Vec::new(alloc);
    listeners.push(listener)?;
    Ok((words, Audience::new(listeners)))
}

/// How a run with the system's words ended.
#[derive(Drop)]
pub struct Ended<L: Listener> {
    /// The exit status of the process, as `run` answers it.
    pub status: u8,
    /// The listener, as the run left it, unless it left while it was told; absent where there was no memory for the words.
    pub audience: Option<Audience<L>>,
}

/// Runs the program with the words that the system tells, over a source and a sink, and answers its exit status, as `run` does.
/// Words that are not text are outside the grammar. Where there was no memory for the words, nothing is read or written, and the
/// status is 7.
///
/// The listener is told of each answer to a search once its line was written whole. Workers that share the tasks of searches pass the
/// gate.
pub fn run_arguments<R: Threads + Sync, S: Source, K: Sink, L: Listener>(
    rt: &R,
    alloc: Global,
    arguments: io::Result<Args>,
    source: &mut S,
    sink: &mut K,
    listener: L,
    gate: &dyn Gate,
) -> Ended<L>
    // What was written and read, and what the listener heard.
    ensures output { (words : Items (Items ℕ)) (input before : Items ℕ) → words_given arguments ≡ Some words →
        S.left source.old ≡ Some input → K.written sink.old ≡ Some before →
        IfSome result.audience (λ heard. Runs true words input (S.left source.new) result.status
        (so_far (Some before) (alone (L.standing listener))) (so_far (K.written sink.new) heard)) }

    // Where there was no memory for the words.
    ensures no_words { words_given arguments ≡ None → IsNone result.audience }
    ensures memory { IfNone result.audience (result.status ≡ 7) }
    ensures untouched { IfNone result.audience (source.new ≡ source.old) }
    ensures unwritten { IfNone result.audience (sink.new ≡ sink.old) }

    // What is so whatever the source and the sink tell: where the words ask for no input the source is as it was, with its count of
    // faults; and which statuses there are.
    ensures unread { (words : Items (Items ℕ)) → words_given arguments ≡ Some words → AskForNoInput (settings_of true words) →
        source.new ≡ source.old }
    ensures statuses { IsExitStatus result.status }
    ensures no_read_fault { (words : Items (Items ℕ)) → words_given arguments ≡ Some words → AskForNoInput (settings_of true words) →
        result.status ≢ 3 }

    // Why each status comes.
    ensures finished { result.status ≡ 0 → (words : Items (Items ℕ)) → words_given arguments ≡ Some words → (settings : Settings) →
        settings_of true words ≡ Ok settings → settings.generate ≡ None → IsAtEnd (S.left source.new) }
    ensures usage { result.status ≡ 2 → (words : Items (Items ℕ)) → words_given arguments ≡ Some words → IsErr (settings_of true words) }
    ensures refused { (words : Items (Items ℕ)) → words_given arguments ≡ Some words → IsErr (settings_of true words) →
        IsOfRefusedWords result.status }
    ensures read_fault { result.status ≡ 3 → Rose (S.faults source.old) (S.faults source.new) }
    ensures write_fault { result.status ≡ 4 → Rose (K.faults sink.old) (K.faults sink.new) }
{
    match prepare(alloc, arguments, listener) {
        Ok((words, mut audience)) => {
            let status = run(
                rt,
                alloc,
                words.as_slice(),
                source,
                sink,
                &mut audience,
                gate,
            );
            Ended {
                status,
                audience: Some(audience),
            }
        }
        Err(AllocError) => Ended {
            status: Status::Memory.code(),
            audience: None,
        },
    }
}
