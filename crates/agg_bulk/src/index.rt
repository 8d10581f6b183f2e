//! The index of what was loaded.
ghost use Rattle.std.specs.Prelude.{◌≡◌, ◌≤◌, ℕ, List, None, Some, Err, IfOk, OnOk};
ghost use Rattle.agg_base.specs.Lines.{source_of, source_name, kept, unread, Gave};
ghost use Rattle.agg_base.specs.Outside.{Rose};
ghost use Rattle.agg_reading.specs.Lines.{start};
ghost use Rattle.agg_spec.specs.Requests.{loaded_index};
ghost use Rattle.fitting_laws.specs.Stores.{IsIndexed};
ghost use Rattle.script_lines.specs.Steps.{place_of};
ghost use Rattle.script_lines.specs.declared.fault.ScriptFault.TheVariants.{Read};
ghost use Rattle.column_loading.specs.Loadings.{IsLoadingOf, store_of};
ghost use Rattle.agg_bulk.specs.Indexing.{Indexes};
ghost use Rattle.fitting_laws.specs.Indexes.{index_of};
ghost use Rattle.agg_bulk.specs.Loading.{loaded_of};

use crate::sections::{Sections, load_sections};
use agg_base::{Lines, Source};
use agg_reading::IndexLine;
use bulk_items::Items;
use column_loading::Loading;
use script_lines::ScriptFault;
use shard_columns::Index;
use std::alloc::{AllocError, Global};

/// An index with the items of the bulk actions that made it.
#[derive(Drop)]
pub struct LoadedIndex {
    pub index: Index,
    /// In the order of the actions.
    pub items: Items,
}

/// The index of what was loaded: its shards have the documents that the routings choose.
pub(crate) fn index_from(
    alloc: Global,
    line: IndexLine,
    loading: Loading,
) -> Result<Index, AllocError>
    requires indexed { IsIndexed (loaded_of line (store_of line.mapping loading)) }
    requires loading { IsLoadingOf line.mapping loading }
    requires shards { loading.shards ≡ line.shards }
    ensures { IfOk result (λ index. index_of index ≡ loaded_index (loaded_of line (store_of line.mapping loading))) }
{
    let shards = loading.finish(alloc, &line.mapping)?;
    let IndexLine {
        name,
        mapping,
        shards: _,
    } = line;
    Ok(Index {
        name,
        mapping,
        shards,
    })
}

/// Reads the first two sections of a script, from its start, and builds the index of what they leave, in time n log n.
///
/// A script that breaks a rule is refused with one of `agg_model::script_refusal`, at the first line that breaks one. Where
/// the source fails, the whole lines of what was read are refused as a script. A bulk action that is refused is an item, and
/// changes nothing.
pub fn load_index<S: Source>(
    alloc: Global,
    lines: &mut Lines<'_, S>,
) -> Result<LoadedIndex, ScriptFault>
    requires kept { kept lines.old ≡ None }
    requires start { place_of lines.old ≡ start }
    ensures script { (bytes : List ℕ) → unread lines.old ≡ Some bytes → Indexes bytes result lines.new }
    ensures fault { result ≡ Err Read → Rose (S.faults (source_of lines.old)) (S.faults (source_of lines.new)) }
    ensures never_falls { S.faults (source_of lines.old) ≤ S.faults (source_of lines.new) }
    ensures gave { Gave lines.old lines.new }
    ensures kept { OnOk result (kept lines.new ≡ None) }
    ensures same_source { source_name lines.new ≡ source_name lines.old }
{
    let Sections {
        index,
        loading,
        items,
    } = load_sections(alloc, lines)?;
    let index = index_from(alloc, index, loading)?;
    Ok(LoadedIndex { index, items })
}
