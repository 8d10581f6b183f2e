//! The searches of a wave, and the statistics behind the last one.
ghost use Rattle.std.specs.Prelude.{◌≡◌, ◌≤◌, map, length, Err, OnOk};
ghost use Rattle.agg_base.specs.Outside.{Rose};
ghost use Rattle.agg_spec.specs.Requests.{request_of};
ghost use Rattle.agg_spec.specs.Answers.{Recent};
ghost use Rattle.script_answers.specs.Answering.{MayBe};
ghost use Rattle.script_answers.specs.Outputs.{so_far};
ghost use Rattle.script_answers.specs.Waves.{PutsWave, PutsTotals};

use crate::answerer::Answerer;
use crate::stop::Stop;
use crate::writing::{write_answers, write_statistics};
use agg_base::Sink;
use agg_listen::{Audience, Listener};
use agg_model::{Bytes, List};
use std::alloc::Global;
use std::thread::Threads;
use worker_gate::Gate;

/// Answers the searches of a wave, writes their lines in their order, and tells the listeners of each once it is written. A wave
/// may be empty, and then nothing is answered nor written.
///
/// Where memory runs out or the sink fails, the lines before stand whole, of the next one a front at most that is not all of it,
/// and nothing is said of the rounds. Takes the time and memory of the answers, and time linear in their lines.
pub fn answer_wave<R: Threads + Sync, K: Sink, L: Listener, A: Answerer>(
    rt: &R,
    alloc: Global,
    sink: &mut K,
    audience: &mut Audience<L>,
    answerer: &mut A,
    bodies: &List<Bytes>,
    gate: &dyn Gate,
) -> Result<(), Stop>
    requires some { 1 ≤ (A.in_force answerer.old).width }
    requires few { length bodies.now ≤ (A.in_force answerer.old).width }
    ensures puts { (recent : Recent) → MayBe (A.in_force answerer.old) (A.answered answerer.old) recent → (now : Recent)
        × PutsWave (A.index answerer.old) (A.columns answerer.old) recent (map (request_of (A.index answerer.old)) bodies.now)
        (so_far (K.written sink.old) audience.old) (so_far (K.written sink.new) audience.new) now result
        × OnOk result (MayBe (A.in_force answerer.new) (A.answered answerer.new) now) }
    ensures same_settings { A.in_force answerer.new ≡ A.in_force answerer.old }
    ensures same_index { A.index answerer.new ≡ A.index answerer.old }
    ensures same_columns { A.columns answerer.new ≡ A.columns answerer.old }
    ensures fault { result ≡ Err Stop.Write → Rose (K.faults sink.old) (K.faults sink.new) }
    ensures never_falls { K.faults sink.old ≤ K.faults sink.new }
{
    if bodies.is_empty() {
        return Ok(());
    }
    let answers = answerer.answer(rt, alloc, bodies, gate)?;
    write_answers(alloc, sink, audience, &answers)
}

/// Closes the answerer, and writes the line of its statistics, the last of a script. Where the sink fails or memory runs out,
/// `write_statistics` tells what was written.
pub fn close<K: Sink, L: Listener, A: Answerer>(
    alloc: Global,
    sink: &mut K,
    audience: &mut Audience<L>,
    answerer: A,
) -> Result<(), Stop>
    ensures puts { (recent : Recent) → MayBe (A.in_force answerer) (A.answered answerer) recent →
        PutsTotals (A.index answerer) (A.columns answerer) recent (so_far (K.written sink.old) audience.old) (so_far (K.written sink.new) audience.new) result }
    ensures fault { result ≡ Err Stop.Write → Rose (K.faults sink.old) (K.faults sink.new) }
    ensures never_falls { K.faults sink.old ≤ K.faults sink.new }
{
    let totals = answerer.close();
    write_statistics(alloc, sink, audience, &totals)
}
