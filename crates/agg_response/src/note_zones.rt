//! The zones in which the keys of notes are printed ('Min bucket aggregation', 'Max bucket aggregation': `keys`).
ghost use Rattle.std.specs.Prelude.{◌≡◌, IfOk, map, slice_get, option_and_then, option_copied};
ghost use Rattle.agg_model.specs.declared.aggregation.Agg.{out-Agg};
ghost use Rattle.agg_spec.specs.NoteZones as zones;
ghost use Rattle.agg_response.specs.NoteZones.{dated_values};

use crate::keys::zone_of_terms;
use agg_model::{Agg, Kind, Mapping, Note, Pipe, PipeKind, Search};
use std::alloc::{AllocError, Global};

/// A pipeline that notes keys which are instants, with the zone of their texts.
#[derive(Clone, Copy)]
pub struct Dated<'s> {
    pub(crate) zone: i64,
    pub(crate) pipe: &'s Pipe,
}

/// The zone in which the keys of a kind's buckets are printed that are instants.
fn zone_of_buckets(mapping: &Mapping, kind: &Kind) -> Option<i64>
    ensures { result ≡ zones.zone_of_buckets mapping.now kind.now }
{
    match kind {
        Kind::Terms { field, .. } => zone_of_terms(mapping, *field),
        Kind::DateHistogram { zone, .. } => Some(*zone),
        Kind::Histogram { .. }
        | Kind::Filters { .. }
        | Kind::Filter { .. }
        | Kind::Missing { .. }
        | Kind::Global
        | Kind::Nested { .. }
        | Kind::ReverseNested { .. }
        | Kind::Composite { .. }
        | Kind::Sum { .. }
        | Kind::Min { .. }
        | Kind::Max { .. }
        | Kind::Avg { .. }
        | Kind::ValueCount { .. } => None,
    }
}

/// The aggregation beside the pipeline whose buckets' keys it notes.
fn keyed_sibling(kind: &PipeKind) -> Option<u32>
    ensures { result ≡ zones.keyed_sibling kind.now }
{
    match kind {
        PipeKind::MinBucket { sibling, .. } | PipeKind::MaxBucket { sibling, .. } => Some(*sibling),
        PipeKind::CumulativeSum { .. }
        | PipeKind::Derivative { .. }
        | PipeKind::SumBucket { .. }
        | PipeKind::BucketSort { .. } => None,
    }
}

/// The aggregation at a place of the object that those at these places enclose, the outermost first.
fn enclosed_agg<'a>(places: &[u32], aggs: &'a [Agg], place: u32) -> Option<&'a Agg>
    ensures { option_copied result ≡ slice_get (zones.enclosed_aggs places.now aggs.now) place }
{
    let mut within = aggs;
    for around in places {
        within = within.get(*around as usize)?.children.as_slice();
    }
    within.get(place as usize)
}

/// The zone of the keys that a pipeline notes.
fn zone_of_pipe(search: &Search, mapping: &Mapping, pipe: &Pipe) -> Option<i64>
    ensures { result ≡ zones.zone_of_pipe search.now mapping.now pipe.now }
{
    let sibling = keyed_sibling(&pipe.kind)?;
    let agg = enclosed_agg(pipe.at.as_slice(), search.aggs.as_slice(), sibling)?;
    zone_of_buckets(mapping, &agg.kind)
}

/// The pipelines that note keys which are instants.
pub(crate) fn dated_pipes<'s>(
    alloc: Global,
    search: &'s Search,
    mapping: &Mapping,
) -> Result<Vec<Dated<'s>>, AllocError>
    ensures { IfOk result (λ ds. dated_values ds.items ≡ zones.dated_pipes search.now mapping.now) }
{
    let mut dated = Vec::new(alloc);
    for pipe in search.pipes.as_slice() {
        if let Some(zone) = zone_of_pipe(search, mapping, pipe) {
            dated.push(Dated { zone, pipe })?;
        }
    }
    Ok(dated)
}

/// Whether an object, given by the places of aggregations and of buckets by turns, stands within the aggregations at these places.
fn stands_within(places: &[u32], at: &[u32]) -> bool
    ensures { result ≡ zones.stands_within places.now at.now }
{
    let mut left = at;
    for place in places {
        let [first, _bucket, rest @ ..] = left else {
            return false;
        };
        if *place != *first {
            return false;
        }
        left = rest;
    }
    left.is_empty()
}

/// The zone in which the keys of a note are printed, where its pipeline is one of these.
pub(crate) fn zone_of_note(dated: &[Dated<'_>], note: &Note) -> Option<i64>
    ensures { result ≡ zones.zone_of_note (dated_values dated.now) note.now }
{
    for said in dated {
        if said.pipe.name.as_str() == note.name.as_str()
            && stands_within(said.pipe.at.as_slice(), note.at.as_slice())
        {
            return Some(said.zone);
        }
    }
    None
}
