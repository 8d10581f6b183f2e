//! One more entry of a script, and its end.
ghost use Rattle.std.specs.Prelude.{◌≡◌, ◌≤◌, ◌∷◌, ◌++◌, [], Some, Err, IfOk, IfErr, OnOk, true};
ghost use Rattle.serde_json.specs.View.{view};
ghost use Rattle.agg_base.specs.Outside.{Rose};
ghost use Rattle.agg_reading.specs.Entries as entry;
ghost use Rattle.agg_reading.specs.Entries.{Entries, no_more};
ghost use Rattle.agg_reading.specs.SettingsLines.{is_settings_line};
ghost use Rattle.agg_spec.specs.Answers.{Recent};
ghost use Rattle.script_answers.specs.Answering.{MayBe, fresh_with};
ghost use Rattle.agg_settings.specs.Ranges.{AreInRange};
ghost use Rattle.script_lines.specs.Reading.{IsFormed, behind, entry_of};
ghost use Rattle.script_answers.specs.Outputs.{so_far};
ghost use Rattle.script_answers.specs.Stepping.{bodies_of, IsReady, TakesEntry, StopsAt, Finishes};

use crate::answerer::Answerer;
use crate::changing::change_settings;
use crate::stop::Stop;
use crate::wave::{answer_wave, close};
use agg_base::Sink;
use agg_listen::{Audience, Listener};
use agg_model::{Bytes, List, Settings};
use script_lines::Entry;
use serde_json::Value;
use std::alloc::Global;
use std::thread::Threads;
use worker_gate::Gate;

/// Who answers, and the bodies of the searches that wait for their wave to be full.
#[derive(Drop)]
pub(crate) struct Waiting<A: Answerer> {
    pub answerer: A,
    pub wave: List<Bytes>,
}

/// One more search: the wave is answered where it is full now.
fn take_body<R: Threads + Sync, K: Sink, L: Listener, A: Answerer>(
    rt: &R,
    alloc: Global,
    sink: &mut K,
    audience: &mut Audience<L>,
    waiting: Waiting<A>,
    words: &Settings,
    body: Bytes,
    gate: &dyn Gate,
) -> Result<Waiting<A>, Stop>
    requires ready { IsReady words.now (fresh_with (A.in_force waiting.answerer)) waiting.wave }
    ensures takes { IfOk result (λ now. (recent : Recent) →
        MayBe (A.in_force waiting.answerer) (A.answered waiting.answerer) recent → (next : Recent)
        × TakesEntry words.now (A.index waiting.answerer) (A.columns waiting.answerer) recent waiting.wave
        (entry.body body) (so_far (K.written sink.old) audience.old) (so_far (K.written sink.new) audience.new) next now.wave
        × MayBe (A.in_force now.answerer) (A.answered now.answerer) next) }
    ensures ready { IfOk result (λ now. IsReady words.now (fresh_with (A.in_force now.answerer)) now.wave) }
    ensures stops { IfErr result (λ stop. (recent : Recent) →
        MayBe (A.in_force waiting.answerer) (A.answered waiting.answerer) recent → (left : Entries) →
        StopsAt words.now (A.index waiting.answerer) (A.columns waiting.answerer) recent
        (behind (bodies_of waiting.wave ++ entry.body body ∷ []) left)
        (so_far (K.written sink.old) audience.old) (so_far (K.written sink.new) audience.new) stop) }
    ensures same_index { IfOk result (λ now. A.index now.answerer ≡ A.index waiting.answerer) }
    ensures same_columns { IfOk result (λ now. A.columns now.answerer ≡ A.columns waiting.answerer) }
    ensures fault { result ≡ Err Stop.Write → Rose (K.faults sink.old) (K.faults sink.new) }
    ensures never_falls { K.faults sink.old ≤ K.faults sink.new }
{
    let Waiting {
        mut answerer,
        mut wave,
    } = waiting;
    wave.push(body)?;
    if wave.len() < words.width as usize {
        return Ok(Waiting { answerer, wave });
    }
    answer_wave(rt, alloc, sink, audience, &mut answerer, &wave, gate)?;
    Ok(Waiting {
        answerer,
        wave: List::new(alloc),
    })
}

/// A settings line, behind the searches of the wave before it.
fn take_settings<R: Threads + Sync, K: Sink, L: Listener, A: Answerer>(
    rt: &R,
    alloc: Global,
    sink: &mut K,
    audience: &mut Audience<L>,
    waiting: Waiting<A>,
    words: &Settings,
    line: &Value,
    gate: &dyn Gate,
) -> Result<Waiting<A>, Stop>
    requires ready { IsReady words.now (fresh_with (A.in_force waiting.answerer)) waiting.wave }
    requires line { is_settings_line (view line.now) ≡ true }
    requires in_range { AreInRange words.now }
    ensures takes { IfOk result (λ now. (recent : Recent) →
        MayBe (A.in_force waiting.answerer) (A.answered waiting.answerer) recent → (next : Recent)
        × TakesEntry words.now (A.index waiting.answerer) (A.columns waiting.answerer) recent waiting.wave
        (entry.change (view line.now)) (so_far (K.written sink.old) audience.old) (so_far (K.written sink.new) audience.new) next now.wave
        × MayBe (A.in_force now.answerer) (A.answered now.answerer) next) }
    ensures ready { IfOk result (λ now. IsReady words.now (fresh_with (A.in_force now.answerer)) now.wave) }
    ensures stops { IfErr result (λ stop. (recent : Recent) →
        MayBe (A.in_force waiting.answerer) (A.answered waiting.answerer) recent → (left : Entries) →
        StopsAt words.now (A.index waiting.answerer) (A.columns waiting.answerer) recent
        (behind (bodies_of waiting.wave ++ entry.change (view line.now) ∷ []) left)
        (so_far (K.written sink.old) audience.old) (so_far (K.written sink.new) audience.new) stop) }
    ensures same_index { IfOk result (λ now. A.index now.answerer ≡ A.index waiting.answerer) }
    ensures same_columns { IfOk result (λ now. A.columns now.answerer ≡ A.columns waiting.answerer) }
    ensures fault { result ≡ Err Stop.Write → Rose (K.faults sink.old) (K.faults sink.new) }
    ensures never_falls { K.faults sink.old ≤ K.faults sink.new }
{
    let Waiting { mut answerer, wave } = waiting;
    answer_wave(rt, alloc, sink, audience, &mut answerer, &wave, gate)?;
    let answerer = change_settings(alloc, sink, audience, answerer, words, line)?;
    Ok(Waiting {
        answerer,
        wave: List::new(alloc),
    })
}

/// One more entry.
pub(crate) fn take_entry<R: Threads + Sync, K: Sink, L: Listener, A: Answerer>(
    rt: &R,
    alloc: Global,
    sink: &mut K,
    audience: &mut Audience<L>,
    waiting: Waiting<A>,
    words: &Settings,
    entry: Entry,
    gate: &dyn Gate,
) -> Result<Waiting<A>, Stop>
    requires ready { IsReady words.now (fresh_with (A.in_force waiting.answerer)) waiting.wave }
    requires formed { IsFormed (Some entry) }
    requires in_range { AreInRange words.now }
    ensures takes { IfOk result (λ now. (recent : Recent) →
        MayBe (A.in_force waiting.answerer) (A.answered waiting.answerer) recent → (next : Recent)
        × TakesEntry words.now (A.index waiting.answerer) (A.columns waiting.answerer) recent waiting.wave
        (entry_of entry) (so_far (K.written sink.old) audience.old) (so_far (K.written sink.new) audience.new) next now.wave
        × MayBe (A.in_force now.answerer) (A.answered now.answerer) next) }
    ensures ready { IfOk result (λ now. IsReady words.now (fresh_with (A.in_force now.answerer)) now.wave) }
    ensures stops { IfErr result (λ stop. (recent : Recent) →
        MayBe (A.in_force waiting.answerer) (A.answered waiting.answerer) recent → (left : Entries) →
        StopsAt words.now (A.index waiting.answerer) (A.columns waiting.answerer) recent
        (behind (bodies_of waiting.wave ++ entry_of entry ∷ []) left)
        (so_far (K.written sink.old) audience.old) (so_far (K.written sink.new) audience.new) stop) }
    ensures same_index { IfOk result (λ now. A.index now.answerer ≡ A.index waiting.answerer) }
    ensures same_columns { IfOk result (λ now. A.columns now.answerer ≡ A.columns waiting.answerer) }
    ensures fault { result ≡ Err Stop.Write → Rose (K.faults sink.old) (K.faults sink.new) }
    ensures never_falls { K.faults sink.old ≤ K.faults sink.new }
{
    match entry {
        Entry::Body(body) => take_body(rt, alloc, sink, audience, waiting, words, body, gate),
        Entry::Settings(line) => take_settings(
            rt, alloc, sink, audience, waiting, words, &line, gate,
        ),
    }
}

/// The end of the script: the last wave, which may be short, and the statistics.
pub(crate) fn finish<R: Threads + Sync, K: Sink, L: Listener, A: Answerer>(
    rt: &R,
    alloc: Global,
    sink: &mut K,
    audience: &mut Audience<L>,
    waiting: Waiting<A>,
    words: &Settings,
    gate: &dyn Gate,
) -> Result<(), Stop>
    requires ready { IsReady words.now (fresh_with (A.in_force waiting.answerer)) waiting.wave }
    ensures finishes { OnOk result ((recent : Recent) →
        MayBe (A.in_force waiting.answerer) (A.answered waiting.answerer) recent →
        Finishes words.now (A.index waiting.answerer) (A.columns waiting.answerer) recent
        (behind (bodies_of waiting.wave) no_more) (so_far (K.written sink.old) audience.old) (so_far (K.written sink.new) audience.new)) }
    ensures stops { IfErr result (λ stop. (recent : Recent) →
        MayBe (A.in_force waiting.answerer) (A.answered waiting.answerer) recent →
        StopsAt words.now (A.index waiting.answerer) (A.columns waiting.answerer) recent
        (behind (bodies_of waiting.wave) no_more) (so_far (K.written sink.old) audience.old) (so_far (K.written sink.new) audience.new) stop) }
    ensures fault { result ≡ Err Stop.Write → Rose (K.faults sink.old) (K.faults sink.new) }
    ensures never_falls { K.faults sink.old ≤ K.faults sink.new }
{
    let Waiting { mut answerer, wave } = waiting;
    answer_wave(rt, alloc, sink, audience, &mut answerer, &wave, gate)?;
    close(alloc, sink, audience, answerer)
}
