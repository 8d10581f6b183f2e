//! Contexts by number, once all nested paths are known: 0 is the root, i + 1 the i-th nested path.

ghost use Rattle.std.specs.Prelude.{◌≡◌, ◌≤◌, IfOk, length, map};
ghost use Rattle.agg_reading.specs.Mapping.{context_of, numbered_field, numbered_path, numbered};
ghost use Rattle.agg_mapping.specs.Arranged.{arranged};
ghost use Rattle.agg_model.specs.MappingOrder.{AscendsBy, IsOrdered};

use crate::collected::Collected;
use crate::paths::first;
use agg_model::limits::MAX_PATHS;
use agg_model::{Copying, Field, List, Mapping, NestedPath, Text};
use agg_reading::{Found, FoundField, FoundPath};
use std::alloc::{AllocError, Global};

/// The context of what a nested path encloses; the empty path is the root.
#[tactic(auto, unfolding(agg_reading::specs::Mapping::context_of))]
fn context_of(nested: &[FoundPath], within: &Text) -> u32
    requires ascends { AscendsBy (λ p. p.path) nested.now }
    requires few { length nested.now ≤ MAX_PATHS }
    ensures { result ≡ context_of nested.now within.now }
{
    match first(nested, within.as_str().as_bytes()) {
        Some((place, _)) => place as u32 + 1,
        None => 0,
    }
}

/// A field with its context by number.
#[tactic(auto, unfolding(agg_reading::specs::Mapping::numbered_field))]
fn numbered_field(nested: &[FoundPath], field: FoundField) -> Field
    requires ascends { AscendsBy (λ p. p.path) nested.now }
    requires few { length nested.now ≤ MAX_PATHS }
    ensures { result ≡ numbered_field nested.now field }
{
    let context = context_of(nested, &field.within);
    let FoundField {
        path,
        kind,
        ignore_above,
        within: _,
    } = field;
    Field {
        path,
        kind,
        ignore_above,
        context,
    }
}

/// A nested path with the context that encloses it by number.
#[tactic(auto, unfolding(agg_reading::specs::Mapping::numbered_path))]
fn numbered_path(
    alloc: Global,
    nested: &[FoundPath],
    path: &FoundPath,
) -> Result<NestedPath, AllocError>
    requires ascends { AscendsBy (λ p. p.path) nested.now }
    requires few { length nested.now ≤ MAX_PATHS }
    ensures { IfOk result (λ p. p ≡ numbered_path nested.now path.now) }
{
    Ok(NestedPath {
        path: path.path.copy(alloc)?,
        parent: context_of(nested, &path.within),
    })
}

/// All fields, in their order.
fn numbered_fields(
    alloc: Global,
    nested: &[FoundPath],
    fields: List<FoundField>,
) -> Result<List<Field>, AllocError>
    requires ascends { AscendsBy (λ p. p.path) nested.now }
    requires few { length nested.now ≤ MAX_PATHS }
    ensures { IfOk result (λ fs. fs ≡ map (numbered_field nested.now) fields) }
{
    let mut all = List::new(alloc);
    for field in fields.into_vec() {
        all.push(numbered_field(nested, field))?;
    }
    Ok(all)
}

/// All nested paths with the contexts that enclose them, in their order. The paths are copied, since each is looked up
/// among all of them.
fn numbered_paths(alloc: Global, nested: &[FoundPath]) -> Result<List<NestedPath>, AllocError>
    requires ascends { AscendsBy (λ p. p.path) nested.now }
    requires few { length nested.now ≤ MAX_PATHS }
    ensures { IfOk result (λ ps. ps ≡ map (numbered_path nested.now) nested.now) }
{
    let mut all = List::new(alloc);
    for path in nested {
        all.push(numbered_path(alloc, nested, path)?)?;
    }
    Ok(all)
}

/// What was found as a mapping in byte order of the paths.
#[tactic(auto, unfolding(agg_reading::specs::Mapping::numbered))]
pub(crate) fn numbered(alloc: Global, strict: bool, found: Collected) -> Result<Mapping, AllocError>
    ensures mapping { IfOk result (λ m. m ≡ numbered strict (arranged found)) }
    ensures ordered { IfOk result IsOrdered }
{
    let Found {
        fields,
        nested,
        objects,
    } = found.into_found()?;
    let fields = numbered_fields(alloc, nested.as_slice(), fields)?;
    Ok(Mapping {
        fields,
        nested: numbered_paths(alloc, nested.as_slice())?,
        objects,
        strict,
    })
}
