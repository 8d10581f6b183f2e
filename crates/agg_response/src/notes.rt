//! What pipelines say in the objects of an answer ('Pipeline aggregations').
ghost use Rattle.std.specs.Prelude.{◌≡◌, [], IfOk, map, slice_get};
ghost use Rattle.std.specs.Option.{option_map_or};
ghost use Rattle.agg_spec.specs.AnswerTree as tree;
ghost use Rattle.agg_spec.specs.Json.{array_of, with_members};
ghost use Rattle.agg_spec.specs.NoteZones.{zoned_notes};
ghost use Rattle.agg_response.specs.Seen.{AreParts, seen_notes};
ghost use Rattle.serde_json.specs.Data.{string};
ghost use Rattle.serde_json.specs.View.{members_view, view};

use crate::keys::key_text;
use crate::note_zones::{dated_pipes, zone_of_note};
use crate::numbers::optional_value;
use crate::values::{Array, Json, Object, text_value};
use agg_model::{Key, List, Mapping, Note, Search};
use std::alloc::{AllocError, Global};

/// A note as it is seen from an object, with the zone in which its keys are printed where they are instants.
#[derive(Clone, Copy)]
pub struct Zoned<'n> {
    pub(crate) zone: Option<i64>,
    /// Its places from the object on.
    pub(crate) at: &'n [u32],
    pub(crate) note: &'n Note,
}

/// The notes beneath an object.
#[derive(Drop)]
pub struct Seen<'n> {
    pub(crate) notes: Vec<Zoned<'n>>,
}

impl<'n> Seen<'n> {
    /// All notes of an answer to the search, from the top.
    pub(crate) fn all(
        alloc: Global,
        search: &Search,
        mapping: &Mapping,
        notes: &'n List<Note>,
    ) -> Result<Seen<'n>, AllocError>
        ensures { IfOk result (λ s. seen_notes s ≡ zoned_notes search.now mapping.now notes.now) }
    {
        let dated = dated_pipes(alloc, search, mapping)?;
        let mut seen = Vec::new(alloc);
        for note in notes.as_slice() {
            let zone = zone_of_note(dated.as_slice(), note);
            seen.push(Zoned {
                zone,
                at: note.at.as_slice(),
                note,
            })?;
        }
        Ok(Seen { notes: seen })
    }

    /// No note.
    pub(crate) fn none(alloc: Global) -> Seen<'n>
        ensures { seen_notes result ≡ [] }
    {
        Seen {
            notes: Vec::new(alloc),
        }
    }

    /// The notes beneath each of the first places, in one walk. Where there is no note there is no list, and it takes no
    /// memory.
    pub(crate) fn parts(&self, alloc: Global, places: usize) -> Result<Vec<Seen<'n>>, AllocError>
        ensures { IfOk result (λ parts. AreParts (seen_notes self.now) places parts.items) }
    {
        let mut parts = Vec::new(alloc);
        if self.notes.is_empty() {
            return Ok(parts);
        }
        for _ in 0..places {
            parts.push(Seen::none(alloc))?;
        }
        for zoned in self.notes.iter() {
            let [place, rest @ ..] = zoned.at else {
                continue;
            };
            let Some(part) = parts.get_mut(*place as usize) else {
                continue;
            };
            part.notes.push(Zoned {
                zone: zoned.zone,
                at: rest,
                note: zoned.note,
            })?;
        }
        Ok(parts)
    }
}

/// The notes beneath a place among these; `none` where there is no such list.
pub(crate) fn part<'a, 'n>(parts: &'a [Seen<'n>], place: usize, none: &'a Seen<'n>) -> &'a Seen<'n>
    requires { seen_notes none.now ≡ [] }
    ensures { seen_notes result.now ≡ option_map_or seen_notes (slice_get parts.now place) [] }
{
    parts.get(place).unwrap_or(none)
}

/// The texts of keys, as a list; whole numbers are instants where there is a zone.
fn key_list(alloc: Global, zone: Option<i64>, keys: &List<Key>) -> Result<Json, AllocError>
    ensures { IfOk result (λ j. view j.value ≡ array_of (map (λ k. string (tree.key_text zone k)) keys.now)) }
{
    let mut texts = Array::new(alloc);
    for key in keys.as_slice() {
        let text = key_text(alloc, zone, key)?;
        texts = texts.with(text_value(alloc, text.as_str())?)?;
    }
    Ok(texts.into_json())
}

/// What a pipeline says. Keys stand beside a least or greatest value, which alone may be null.
fn note_value(alloc: Global, zone: Option<i64>, note: &Note) -> Result<Json, AllocError>
    ensures { IfOk result (λ j. view j.value ≡ tree.note_tree (record { zone = zone; note = note.now })) }
{
    let mut object = Object::new(alloc);
    if note.value.is_none() || !note.keys.is_empty() {
        object = object.with(alloc, "keys", key_list(alloc, zone, &note.keys)?)?;
    }
    Ok(
        object
            .with(alloc, "value", optional_value(note.value))?
            .into_json(),
    )
}

/// The object with the notes that stand in it, each under its name.
pub(crate) fn with_notes(
    alloc: Global,
    seen: &Seen<'_>,
    object: Object,
) -> Result<Object, AllocError>
    ensures { IfOk result (λ o. members_view o.members.entries
        ≡ with_members (tree.note_members (seen_notes seen.now)) (members_view object.members.entries)) }
{
    let mut object = object;
    for zoned in seen.notes.iter() {
        if zoned.at.is_empty() {
            let said = note_value(alloc, zoned.zone, zoned.note)?;
            object = object.with(alloc, zoned.note.name.as_str(), said)?;
        }
    }
    Ok(object)
}
