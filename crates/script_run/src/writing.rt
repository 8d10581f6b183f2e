//! The lines of a run that are no answers to searches: the answer to the bulk actions, and the line that ends a run early.
ghost use Rattle.std.specs.Prelude.{◌≡◌, ◌≤◌, ◌∷◌, [], ℕ, List, Err, OnErr, codes};
ghost use Rattle.agg_base.specs.Outside.{Rose};
ghost use Rattle.agg_spec.specs.BulkLine.{bulk_line as text_of_items};
ghost use Rattle.agg_spec.specs.EndLines.{usage_line as text_of_usage};
ghost use Rattle.agg_spec.specs.ErrorLines.{exception_line};
ghost use Rattle.agg_spec.specs.Written.{bulk, error};
ghost use Rattle.script_answers.specs.Outputs.{so_far};
ghost use Rattle.script_answers.specs.Puts.{Puts};

use agg_base::Sink;
use agg_listen::{Audience, Listener};
use agg_model::{List, Text, Tripped, Usage};
use agg_response::{bulk_line, exception, usage_line};
use bulk_items::Items;
use script_answers::{Stop, write_line};
use std::alloc::Global;

/// Writes the line that answers the bulk actions: the items in their order, or their number where the script was generated.
pub(crate) fn write_items<K: Sink, L: Listener>(
    alloc: Global,
    sink: &mut K,
    audience: &mut Audience<L>,
    index: &Text,
    items: &Items,
    generated: bool,
) -> Result<(), Stop>
    ensures puts { Puts
        (so_far (K.written sink.old) audience.old) (so_far (K.written sink.new) audience.new)
        (bulk (text_of_items index.now items.now generated) ∷ []) result }
    ensures fault { result ≡ Err Stop.Write → Rose (K.faults sink.old) (K.faults sink.new) }
    ensures never_falls { K.faults sink.old ≤ K.faults sink.new }
{
    write_line(sink, audience, &bulk_line(alloc, index, items, generated)?)
}

/// Writes the line of columns that are beyond a limit.
pub(crate) fn write_heavy<K: Sink, L: Listener>(
    alloc: Global,
    sink: &mut K,
    audience: &mut Audience<L>,
    tripped: &Tripped,
) -> Result<(), Stop>
    ensures puts { Puts
        (so_far (K.written sink.old) audience.old) (so_far (K.written sink.new) audience.new)
        (error (exception_line tripped.now (codes "columns") 6 []) ∷ []) result }
    ensures fault { result ≡ Err Stop.Write → Rose (K.faults sink.old) (K.faults sink.new) }
    ensures never_falls { K.faults sink.old ≤ K.faults sink.new }
{
    write_line(
        sink,
        audience,
        &exception(alloc, tripped, "columns", 6, &List::new(alloc))?,
    )
}

/// Writes the line of words that are outside the grammar.
pub(crate) fn write_usage<K: Sink, L: Listener>(
    alloc: Global,
    sink: &mut K,
    audience: &mut Audience<L>,
    usage: &Usage,
) -> Result<(), Stop>
    ensures puts { Puts
        (so_far (K.written sink.old) audience.old) (so_far (K.written sink.new) audience.new)
        (error (text_of_usage usage.now) ∷ []) result }
    ensures fault { result ≡ Err Stop.Write → Rose (K.faults sink.old) (K.faults sink.new) }
    ensures never_falls { K.faults sink.old ≤ K.faults sink.new }
{
    write_line(sink, audience, &usage_line(alloc, usage)?)
}
