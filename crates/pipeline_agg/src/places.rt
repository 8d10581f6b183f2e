//! Notes by where they stand: as they are seen from an aggregation, and from the object around it.
ghost use Rattle.std.specs.Prelude.{◌≡◌, ◌++◌, IfOk, OnOk, map};
ghost use Rattle.std.specs.List.{enumerate_from};
ghost use Rattle.agg_spec.specs.Notes.{note_from_around};
ghost use Rattle.pipeline_agg.specs.Told.{bucket_notes};

use crate::remarked::RemarkedBucket;
use agg_model::{BucketAnswer, List, Note};
use std::alloc::{AllocError, Global};

/// A note as it is seen from around this place.
fn from_around(place: u32, note: Note) -> Result<Note, AllocError>
    ensures { IfOk result (λ n. n ≡ note_from_around place note) }
{
    let mut at = note.at.into_vec();
    at.insert(0, place)?;
    Ok(Note {
        at: List::from_vec(at),
        name: note.name,
        value: note.value,
        keys: note.keys,
    })
}

/// The notes as they are seen from around this place. There is no memory for as many answers or buckets side by side as have
/// places above 2^32.
pub(crate) fn all_from_around(
    alloc: Global,
    place: usize,
    notes: List<Note>,
) -> Result<List<Note>, AllocError>
    ensures { IfOk result (λ ns. ns ≡ map (note_from_around place) notes) }
{
    let mut moved = List::new(alloc);
    if notes.is_empty() {
        return Ok(moved);
    }
    let number = u32::try_from(place).map_err(|_| AllocError)?;
    for note in notes.into_vec() {
        moved.push(from_around(number, note)?)?;
    }
    Ok(moved)
}

/// Puts the notes behind those that stand there.
pub(crate) fn append(notes: &mut List<Note>, more: List<Note>) -> Result<(), AllocError>
    ensures { OnOk result (notes.new ≡ notes.old ++ more) }
{
    for note in more.into_vec() {
        notes.push(note)?;
    }
    Ok(())
}

/// The buckets, and the notes in their objects as they are seen from the aggregation.
pub(crate) fn apart(
    alloc: Global,
    remarked: Vec<RemarkedBucket>,
) -> Result<(List<BucketAnswer>, List<Note>), AllocError>
    ensures buckets { IfOk result (λ r. r.0 ≡ map (λ b. b.bucket) remarked.items) }
    ensures notes { IfOk result (λ r. r.1 ≡ bucket_notes (enumerate_from 0 remarked.items)) }
{
    let mut buckets = List::new(alloc);
    let mut notes = List::new(alloc);
    for (place, one) in remarked.into_iter().enumerate() {
        buckets.push(one.bucket)?;
        append(&mut notes, all_from_around(alloc, place, one.notes)?)?;
    }
    Ok((buckets, notes))
}
