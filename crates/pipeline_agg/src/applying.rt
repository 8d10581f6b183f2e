//! The pipelines of a search over its answer.
ghost use Rattle.std.specs.Prelude.{◌≡◌, IfErr, IfOk, None};
ghost use Rattle.agg_spec.specs.Notes.{piped, pipe_out_of_range};
ghost use Rattle.agg_spec.specs.RangeCheck.{out_of_range};
ghost use Rattle.pipeline_agg.specs.Told.{IsCause};

use crate::entries::top_entries;
use crate::fault::PipeFault;
use crate::objects::piped_object;
use crate::placed::{Level, all_placed};
use agg_model::{Answer, List, Piped, Search};
use std::alloc::Global;

/// The answer to a search with what its pipelines say. Each value is of the answer as it comes; a `bucket_sort` then takes
/// away the notes of the buckets that it cuts.
///
/// `SumRange` is the first value of a pipeline outside signed 64 bits, in the order in which the answer would print uncut, with
/// its path. `Memory` may come in the place of any answer. The answer has no other number outside signed 64 bits: such an
/// answer is refused before.
pub fn apply(alloc: Global, search: &Search, answer: Answer) -> Result<Piped, PipeFault>
    requires in_range { out_of_range search.now answer ≡ None }
    ensures answer { IfOk result (λ p. p ≡ piped search.now answer) }
    ensures range { IfOk result (λ p. pipe_out_of_range search.now answer ≡ None) }
    ensures printable { IfOk result (λ p. out_of_range search.now p.answer ≡ None) }
    ensures fault { IfErr result (IsCause (pipe_out_of_range search.now answer)) }
{
    if search.pipes.is_empty() {
        return Ok(Piped {
            answer,
            notes: List::new(alloc),
        });
    }
    let pipes = all_placed(alloc, &search.pipes)?;
    let level = Level::new(alloc, pipes.as_slice(), search.aggs.len())?;
    let own = top_entries(alloc, &search.aggs, level.pipes, &answer.nodes)?;
    let object = piped_object(alloc, &search.aggs, &level, own, answer.nodes)?;
    Ok(Piped {
        answer: Answer {
            hits: answer.hits,
            nodes: object.nodes,
        },
        notes: object.notes,
    })
}
