//! The run of a script over a source and a sink.
ghost use Rattle.std.specs.Prelude.{◌≡◌, ◌≤◌, ◌≢◌, ℕ, Bool, List as Items, Some, None, IsErr, IsSome, Ok, drop};
ghost use Rattle.std.specs.Io.KnownBytes.{IsAtEnd};
ghost use Rattle.agg_base.specs.Outside.{Rose};
ghost use Rattle.agg_model.specs.declared.settings.Settings.{Settings as AnySettings};
ghost use Rattle.agg_settings.specs.Ranges.{AreInRange};
ghost use Rattle.agg_settings.specs.Settings.{settings_of as settings_given};
ghost use Rattle.agg_spec.specs.Generator.{generated};
ghost use Rattle.script_answers.specs.Outputs.{so_far};
ghost use Rattle.script_run.specs.Inputs.{AskForNoInput};
ghost use Rattle.script_run.specs.Runs.{Runs, WroteOf};
ghost use Rattle.script_run.specs.Statuses.{code_of, IsExitStatus, IsOfRefusedWords};
ghost use Rattle.script_run.specs.declared.status.Status.TheVariants as status;

use crate::answering::answer_lines;
use crate::given::Given;
use crate::loading::ended;
use crate::opening::Opens;
use crate::status::Status;
use crate::writing::write_usage;
use agg_base::{Block, Lines, Sink, Source};
use agg_generate::make;
use agg_listen::{Audience, Listener};
use agg_model::{Generate, Settings, Text};
use agg_settings::{SettingsFault, settings_of};
use std::alloc::Global;
use std::thread::Threads;
use worker_gate::Gate;

/// Answers the script that a source has left.
fn answer_source<R: Threads + Sync, S: Source, K: Sink, L: Listener, A: Opens>(
    rt: &R,
    alloc: Global,
    source: &mut S,
    sink: &mut K,
    audience: &mut Audience<L>,
    settings: Settings,
    gate: &dyn Gate,
) -> Status
    requires in_range { AreInRange settings }
    requires takes { A.takes settings }
    ensures output { (input before : Items ℕ) → S.left source.old ≡ Some input → K.written sink.old ≡ Some before →
        (read : ℕ) × (S.left source.new ≡ Some (drop read input))
        × WroteOf settings input read result (so_far (Some before) audience.old) (so_far (K.written sink.new) audience.new) }
    ensures finished { result ≡ status.Finished → IsAtEnd (S.left source.new) }
    ensures read_fault { result ≡ status.ReadFault → Rose (S.faults source.old) (S.faults source.new) }
    ensures write_fault { result ≡ status.WriteFault → Rose (K.faults sink.old) (K.faults sink.new) }
    ensures writes_never_fall { K.faults sink.old ≤ K.faults sink.new }
    ensures no_usage { result ≢ status.Usage }
{
    let Ok(block) = Block::new(alloc) else {
        return Status::Memory;
    };
    let mut lines = Lines::new(alloc, source, block);
    let status = answer_lines::<R, S, K, L, A>(
        rt, alloc, &mut lines, sink, audience, settings, gate,
    );
    let _source = lines.into_source();
    status
}

/// Answers the script that is generated in the place of the input.
fn answer_generated<R: Threads + Sync, K: Sink, L: Listener, A: Opens>(
    rt: &R,
    alloc: Global,
    sink: &mut K,
    audience: &mut Audience<L>,
    settings: Settings,
    generate: &Generate,
    gate: &dyn Gate,
) -> Status
    requires in_range { AreInRange settings }
    requires takes { A.takes settings }
    ensures output { (before : Items ℕ) → K.written sink.old ≡ Some before →
        (read : ℕ) × WroteOf settings (generated generate.now) read result (so_far (Some before) audience.old) (so_far (K.written sink.new) audience.new) }
    ensures unread { result ≢ status.ReadFault }
    ensures write_fault { result ≡ status.WriteFault → Rose (K.faults sink.old) (K.faults sink.new) }
    ensures no_usage { result ≢ status.Usage }
{
    let Ok(script) = make(alloc, generate) else {
        return Status::Memory;
    };
    let mut source = Given::new(script);
    answer_source::<R, Given, K, L, A>(rt, alloc, &mut source, sink, audience, settings, gate)
}

/// Answers the script that the settings ask for: what the source has left, or a generated script.
fn answer_settings<R: Threads + Sync, S: Source, K: Sink, L: Listener, A: Opens>(
    rt: &R,
    alloc: Global,
    source: &mut S,
    sink: &mut K,
    audience: &mut Audience<L>,
    settings: Settings,
    gate: &dyn Gate,
) -> Status
    requires in_range { AreInRange settings }
    requires takes { A.takes settings }
    ensures output { (several : Bool) (words : Items (Items ℕ)) (input before : Items ℕ) → settings_given several words ≡ Ok settings →
        S.left source.old ≡ Some input → K.written sink.old ≡ Some before →
        Runs several words input (S.left source.new) (code_of result) (so_far (Some before) audience.old) (so_far (K.written sink.new) audience.new) }
    ensures finished { result ≡ status.Finished → settings.generate ≡ None → IsAtEnd (S.left source.new) }
    ensures unread { IsSome settings.generate → source.new ≡ source.old }
    ensures no_read_fault { IsSome settings.generate → result ≢ status.ReadFault }
    ensures read_fault { result ≡ status.ReadFault → Rose (S.faults source.old) (S.faults source.new) }
    ensures write_fault { result ≡ status.WriteFault → Rose (K.faults sink.old) (K.faults sink.new) }
    ensures no_usage { result ≢ status.Usage }
{
    match &settings.generate {
        Some(generate) => answer_generated::<R, K, L, A>(
            rt, alloc, sink, audience, settings, generate, gate,
        ),
        None => answer_source::<R, S, K, L, A>(rt, alloc, source, sink, audience, settings, gate),
    }
}

/// Runs a script over a source and a sink, and answers how it ended. With `several`, up to 64 workers and searches at a time are
/// in the grammar of the words.
fn status_of<R: Threads + Sync, S: Source, K: Sink, L: Listener, A: Opens>(
    rt: &R,
    alloc: Global,
    several: bool,
    words: &[Text],
    source: &mut S,
    sink: &mut K,
    audience: &mut Audience<L>,
    gate: &dyn Gate,
) -> Status
    requires takes { (settings : AnySettings) → settings_given several words.now ≡ Ok settings → A.takes settings }
    ensures output { (input before : Items ℕ) → S.left source.old ≡ Some input → K.written sink.old ≡ Some before →
        Runs several words.now input (S.left source.new) (code_of result) (so_far (Some before) audience.old)
        (so_far (K.written sink.new) audience.new) }
    ensures finished { result ≡ status.Finished → (settings : AnySettings) → settings_given several words.now ≡ Ok settings →
        settings.generate ≡ None → IsAtEnd (S.left source.new) }
    ensures unread { AskForNoInput (settings_given several words.now) → source.new ≡ source.old }
    ensures no_read_fault { AskForNoInput (settings_given several words.now) → result ≢ status.ReadFault }
    ensures usage { result ≡ status.Usage → IsErr (settings_given several words.now) }
    ensures refused { IsErr (settings_given several words.now) → IsOfRefusedWords (code_of result) }
    ensures read_fault { result ≡ status.ReadFault → Rose (S.faults source.old) (S.faults source.new) }
    ensures write_fault { result ≡ status.WriteFault → Rose (K.faults sink.old) (K.faults sink.new) }
{
    match settings_of(alloc, words, several) {
        Ok(settings) => answer_settings::<R, S, K, L, A>(
            rt, alloc, source, sink, audience, settings, gate,
        ),
        Err(SettingsFault::Usage(usage)) => {
            ended(write_usage(alloc, sink, audience, &usage), Status::Usage)
        }
        Err(SettingsFault::Memory) => Status::Memory,
    }
}

/// Runs the program over a source and a sink, and answers its exit status. With `several`, up to 64 workers and up to 64 searches
/// at a time are in the grammar of the words, else one.
///
/// - 0: the input was read to its end, and all lines were written.
/// - 2: the words are not in the grammar; nothing is read.
/// - 3: the source failed; whole lines of the output were written. Not with a generated script.
/// - 4: the sink failed; a front of the output was written, and not all.
/// - 5: the script was refused; its error line is the last that was written.
/// - 6: the columns are beyond a limit; that is the one line.
/// - 7: memory ran out; whole lines of the output were written.
///
/// A generated script stands in the place of the input, which is not read.
///
/// Each listener of the audience is told of each answer to a search once its line was written whole. Whoever answers may start
/// threads, which have ended when it returns; workers that share tasks pass the gate.
pub fn run<R: Threads + Sync, S: Source, K: Sink, L: Listener, A: Opens>(
    rt: &R,
    alloc: Global,
    several: bool,
    words: &[Text],
    source: &mut S,
    sink: &mut K,
    audience: &mut Audience<L>,
    gate: &dyn Gate,
) -> u8
    requires takes { (settings : AnySettings) → settings_given several words.now ≡ Ok settings → A.takes settings }
    // What was written and read, where the source and the sink tell their bytes.
    ensures output { (input before : Items ℕ) → S.left source.old ≡ Some input → K.written sink.old ≡ Some before →
        Runs several words.now input (S.left source.new) result (so_far (Some before) audience.old) (so_far (K.written sink.new) audience.new) }

    // What is so whatever the source and the sink tell: where the words ask for no input the source is as it was, with its count of
    // faults; and which statuses there are.
    ensures unread { AskForNoInput (settings_given several words.now) → source.new ≡ source.old }
    ensures statuses { IsExitStatus result }
    ensures no_read_fault { AskForNoInput (settings_given several words.now) → result ≢ 3 }

    // Why each status comes.
    ensures finished { result ≡ 0 → (settings : AnySettings) → settings_given several words.now ≡ Ok settings →
        settings.generate ≡ None → IsAtEnd (S.left source.new) }
    ensures usage { result ≡ 2 → IsErr (settings_given several words.now) }
    ensures refused { IsErr (settings_given several words.now) → IsOfRefusedWords result }
    ensures read_fault { result ≡ 3 → Rose (S.faults source.old) (S.faults source.new) }
    ensures write_fault { result ≡ 4 → Rose (K.faults sink.old) (K.faults sink.new) }
{
    status_of::<R, S, K, L, A>(rt, alloc, several, words, source, sink, audience, gate).code()
}
