//! How a run ends where its script is not loaded.
ghost use Rattle.std.specs.Prelude.{◌≡◌, ◌≤◌, ◌≢◌, ℕ, List as Items, Ok, Err};
ghost use Rattle.agg_base.specs.Outside.{Rose};
ghost use Rattle.agg_bulk.specs.Loads.{EndsLoading};
ghost use Rattle.agg_bulk.specs.declared.end.LoadEnd.TheVariants as load_end;
ghost use Rattle.agg_model.specs.declared.settings.Settings.{Settings};
ghost use Rattle.script_answers.specs.Outputs.{so_far};
ghost use Rattle.script_run.specs.Ends.{ended_by};
ghost use Rattle.script_run.specs.Runs.{WroteOf};
ghost use Rattle.script_run.specs.declared.status.Status.TheVariants as status;

use crate::status::Status;
use crate::writing::write_heavy;
use agg_base::Sink;
use agg_bulk::LoadEnd;
use agg_listen::{Audience, Listener};
use script_answers::{Stop, write_refusal};
use std::alloc::Global;

/// The status of a run whose last line is to have this one, by what became of the line.
pub(crate) fn ended(written: Result<(), Stop>, status: Status) -> Status
    ensures { result ≡ ended_by written status }
{
    match written {
        Ok(()) => status,
        Err(Stop::Write) => Status::WriteFault,
        Err(Stop::Memory) => Status::Memory,
    }
}

/// Writes why the script is not loaded.
pub(crate) fn end_loading<K: Sink, L: Listener>(
    alloc: Global,
    sink: &mut K,
    audience: &mut Audience<L>,
    end: &LoadEnd,
) -> Status
    ensures output { (words : Settings) (bytes : Items ℕ) (read : ℕ) → EndsLoading words.limits bytes end.now read →
        WroteOf words bytes read result (so_far (K.written sink.old) audience.old) (so_far (K.written sink.new) audience.new) }
    ensures read_fault { result ≡ status.ReadFault → end.now ≡ load_end.Read }
    ensures write_fault { result ≡ status.WriteFault → Rose (K.faults sink.old) (K.faults sink.new) }
    ensures never_falls { K.faults sink.old ≤ K.faults sink.new }
    ensures no_usage { result ≢ status.Usage }
    ensures unfinished { result ≢ status.Finished }
{
    match end {
        LoadEnd::Script(refusal) => ended(
            write_refusal(alloc, sink, audience, refusal),
            Status::Refused,
        ),
        LoadEnd::Columns(tripped) => ended(
            write_heavy(alloc, sink, audience, tripped),
            Status::TooHeavy,
        ),
        LoadEnd::Read => Status::ReadFault,
        LoadEnd::Memory => Status::Memory,
    }
}
