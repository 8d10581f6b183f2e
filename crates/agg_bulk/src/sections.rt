//! The first two sections of a script.
ghost use Rattle.std.specs.Prelude.{◌≡◌, ◌≤◌, ℕ, List, None, Ok, Err, IfOk, OnOk, IsTrue};
ghost use Rattle.agg_base.specs.Lines.{source_of, source_name, kept, unread, Gave};
ghost use Rattle.agg_base.specs.Outside.{Rose};
ghost use Rattle.agg_model.specs.declared.limits.TheConstants.{MAX_ACTIONS, MAX_SHARDS};
ghost use Rattle.agg_model.specs.MappingOrder.{IsOrdered};
ghost use Rattle.agg_model.specs.Contexts.{parents_before};
ghost use Rattle.fitting_laws.specs.Stores.{IsFitting, IsIndexed};
ghost use Rattle.agg_reading.specs.Lines.{start};
ghost use Rattle.agg_reading.specs.Script.{loaded, actions, begun};
ghost use Rattle.agg_reading.specs.Script.{sections as sections_from};
ghost use Rattle.agg_reading.specs.declared.parts.IndexLine.{IndexLine as AnyIndexLine};
ghost use Rattle.script_lines.specs.Steps.{place_of, rest_of};
ghost use Rattle.script_lines.specs.declared.fault.ScriptFault.TheVariants.{Read};
ghost use Rattle.column_loading.specs.Loadings.{IsLoadingOf};
ghost use Rattle.agg_bulk.specs.Loading.{GoesOn, Steps, Loads, loaded_of, store_in};

use crate::actions::next_action;
use crate::items::apply;
use agg_base::{Lines, Source};
use agg_mapping::{MapFault, index_line_of};
use agg_model::script_refusal::{BAD_INDEX_LINE, MISSING_SECTION};
use agg_reading::IndexLine;
use bulk_items::Items;
use column_loading::Loading;
use document_rows::Scratch;
use script_lines::{ScriptFault, ScriptRefusal, is_empty_line, refused_here, take_line};
use std::alloc::Global;

/// What the first two sections of a script give.
#[derive(Drop)]
pub struct Sections {
    pub index: IndexLine,
    /// The documents that the bulk actions leave, on their way into columns.
    pub loading: Loading,
    /// The items of the bulk actions, in their order.
    pub items: Items,
}

/// Reads the index line.
fn index_line<S: Source>(alloc: Global, lines: &mut Lines<'_, S>) -> Result<IndexLine, ScriptFault>
    requires kept { kept lines.old ≡ None }
    requires start { place_of lines.old ≡ start }
    ensures script { (bytes : List ℕ) → GoesOn bytes loaded lines.old →
        Steps bytes result (λ index. sections_from index (place_of lines.new)) lines.new }
    ensures ordered { IfOk result (λ index. IsOrdered index.mapping) }
    ensures shards { IfOk result (λ index. (1 ≤ index.shards) × (index.shards ≤ MAX_SHARDS)) }
    ensures paths { IfOk result (λ index. IsTrue (parents_before index.mapping)) }
    ensures fault { result ≡ Err Read → Rose (S.faults (source_of lines.old)) (S.faults (source_of lines.new)) }
    ensures never_falls { S.faults (source_of lines.old) ≤ S.faults (source_of lines.new) }
    ensures gave { Gave lines.old lines.new }
    ensures kept { OnOk result (kept lines.new ≡ None) }
    ensures same_source { source_name lines.new ≡ source_name lines.old }
{
    let line = take_line(alloc, lines, MISSING_SECTION)?;
    match index_line_of(alloc, line.as_slice()) {
        Ok(index) => Ok(index),
        Err(MapFault::Refused { path }) => Err(ScriptFault::Refused(ScriptRefusal {
            number: BAD_INDEX_LINE,
            line: lines.line_number(),
            path,
        })),
        Err(MapFault::Memory) => Err(ScriptFault::Memory),
    }
}

/// Reads the empty line behind the index line.
fn empty_line<S: Source>(alloc: Global, lines: &mut Lines<'_, S>) -> Result<(), ScriptFault>
    requires { kept lines.old ≡ None }
    ensures script { (bytes : List ℕ) (index : AnyIndexLine) →
        GoesOn bytes (sections_from index (place_of lines.old)) lines.old →
        Steps bytes result (λ _. actions (begun index) (place_of lines.new)) lines.new }
    ensures fault { result ≡ Err Read → Rose (S.faults (source_of lines.old)) (S.faults (source_of lines.new)) }
    ensures never_falls { S.faults (source_of lines.old) ≤ S.faults (source_of lines.new) }
    ensures gave { Gave lines.old lines.new }
    ensures kept { OnOk result (kept lines.new ≡ None) }
    ensures same_source { source_name lines.new ≡ source_name lines.old }
{
    let line = take_line(alloc, lines, MISSING_SECTION)?;
    if is_empty_line(line.as_slice()) {
        Ok(())
    } else {
        Err(refused_here(alloc, lines, MISSING_SECTION))
    }
}

/// Reads the bulk actions behind an index line, up to the empty line that ends them.
fn bulk_actions<S: Source>(
    alloc: Global,
    lines: &mut Lines<'_, S>,
    index: IndexLine,
) -> Result<Sections, ScriptFault>
    requires kept { kept lines.old ≡ None }
    requires ordered { IsOrdered index.mapping }
    requires paths { IsTrue (parents_before index.mapping) }
    requires some { 1 ≤ index.shards }
    ensures script { (bytes : List ℕ) → GoesOn bytes (actions (begun index) (place_of lines.old)) lines.old → Loads bytes result lines.new }
    ensures index { IfOk result (λ sections. sections.index ≡ index) }
    ensures fitting { IfOk result (λ sections. IsFitting sections.index.mapping (store_in sections)) }
    ensures loading { IfOk result (λ sections. IsLoadingOf sections.index.mapping sections.loading) }
    ensures shards { IfOk result (λ sections. sections.loading.shards ≡ sections.index.shards) }
    ensures fault { result ≡ Err Read → Rose (S.faults (source_of lines.old)) (S.faults (source_of lines.new)) }
    ensures never_falls { S.faults (source_of lines.old) ≤ S.faults (source_of lines.new) }
    ensures gave { Gave lines.old lines.new }
    ensures kept { OnOk result (kept lines.new ≡ None) }
    ensures same_source { source_name lines.new ≡ source_name lines.old }
{
    let mut scratch = Scratch::new(alloc);
    let mut loading = Loading::new(alloc, &index.mapping, index.shards)?;
    let mut items = Items::new(alloc);
    while let Some(action) = next_action(
        alloc,
        lines,
        index.name.as_str(),
        items.len(),
        &mut scratch,
    )? {
        apply(
            &index.mapping,
            &mut loading,
            &mut items,
            action,
            &mut scratch,
        )?;
    }
    Ok(Sections {
        index,
        loading,
        items,
    })
}

/// Reads the first two sections of a script, from its start: the index line, an empty line, and bulk actions up to the
/// next empty line.
///
/// A script that breaks a rule is refused with one of `agg_model::script_refusal`, at the first line that breaks one. Where
/// the source fails, the whole lines of what was read are refused as a script. A bulk action that is refused is an item, and
/// changes nothing.
pub fn load_sections<S: Source>(
    alloc: Global,
    lines: &mut Lines<'_, S>,
) -> Result<Sections, ScriptFault>
    requires kept { kept lines.old ≡ None }
    requires start { place_of lines.old ≡ start }
    ensures script { (bytes : List ℕ) → unread lines.old ≡ Some bytes → Loads bytes result lines.new }
    ensures indexed { IfOk result (λ sections. IsIndexed (loaded_of sections.index (store_in sections))) }
    ensures loading { IfOk result (λ sections. IsLoadingOf sections.index.mapping sections.loading) }
    ensures built { IfOk result (λ sections. sections.loading.shards ≡ sections.index.shards) }
    ensures fault { result ≡ Err Read → Rose (S.faults (source_of lines.old)) (S.faults (source_of lines.new)) }
    ensures never_falls { S.faults (source_of lines.old) ≤ S.faults (source_of lines.new) }
    ensures gave { Gave lines.old lines.new }
    ensures kept { OnOk result (kept lines.new ≡ None) }
    ensures same_source { source_name lines.new ≡ source_name lines.old }
{
    let index = index_line(alloc, lines)?;
    empty_line(alloc, lines)?;
    bulk_actions(alloc, lines, index)
}
