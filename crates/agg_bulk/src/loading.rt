//! Loading, with the charge of the columns.
ghost use Rattle.std.specs.Prelude.{◌≡◌, ◌≤◌, ℕ, List, None, Some, Err, IfOk, OnOk};
ghost use Rattle.agg_base.specs.Lines.{source_of, source_name, kept, unread, Gave};
ghost use Rattle.agg_base.specs.Outside.{Rose};
ghost use Rattle.agg_reading.specs.Lines.{start};
ghost use Rattle.agg_spec.specs.Columns.{columns_charge, columns_refusal};
ghost use Rattle.script_lines.specs.Steps.{place_of};
ghost use Rattle.breaker_tree.specs.Reopening.{HoldsColumns};
ghost use Rattle.fitting_laws.specs.Indexes.{index_of};
ghost use Rattle.agg_bulk.specs.Loads.{Loads, end_of};
ghost use Rattle.agg_bulk.specs.declared.end.LoadEnd.TheVariants.{Read};

use crate::charging::open_charged;
use crate::columns::columns_charge;
use crate::end::LoadEnd;
use crate::index::{LoadedIndex, load_index};
use agg_base::{Lines, Source};
use agg_model::Settings;
use breaker_words::{Pass, Words};
use bulk_items::Items;
use script_lines::ScriptFault;
use shard_columns::Index;
use std::alloc::Global;

/// What was loaded, and the breakers with the charge of its columns.
#[derive(Drop)]
pub struct Loaded {
    pub index: Index,
    /// The items of the bulk actions, in their order.
    pub items: Items,
    pub words: Words,
    /// The one pass to the words. It holds the charge of the columns, and nothing else.
    pub pass: Pass,
}

/// Why loading ends where reading the script does.
fn end_of(fault: ScriptFault) -> LoadEnd
    ensures { result ≡ end_of fault }
{
    match fault {
        ScriptFault::Refused(refusal) => LoadEnd::Script(refusal),
        ScriptFault::Read => LoadEnd::Read,
        ScriptFault::Memory => LoadEnd::Memory,
    }
}

/// Reads the first two sections of a script, from its start, builds the index of what they leave, and charges its columns
/// once at fielddata and at the parent, whose limits are those of the settings.
///
/// A script that breaks a rule is refused with one of `agg_model::script_refusal`, at the first line that breaks one. Where
/// the source fails, the whole lines of what was read are refused as a script. Of a refused charge nothing is held.
pub fn load<S: Source>(
    alloc: Global,
    lines: &mut Lines<'_, S>,
    settings: &Settings,
) -> Result<Loaded, LoadEnd>
    requires kept { kept lines.old ≡ None }
    requires start { place_of lines.old ≡ start }

    // Where the source tells its bytes.
    ensures script { (bytes : List ℕ) → unread lines.old ≡ Some bytes → Loads settings.now.limits bytes result lines.new }

    ensures light { IfOk result (λ l. columns_refusal settings.now.limits (columns_charge (index_of l.index)) ≡ None) }
    ensures pass { IfOk result (λ l. HoldsColumns settings.now.limits (columns_charge (index_of l.index)) l.words l.pass) }
    ensures fault { result ≡ Err Read → Rose (S.faults (source_of lines.old)) (S.faults (source_of lines.new)) }
    ensures never_falls { S.faults (source_of lines.old) ≤ S.faults (source_of lines.new) }
    ensures gave { Gave lines.old lines.new }
    ensures kept { OnOk result (kept lines.new ≡ None) }
    ensures same_source { source_name lines.new ≡ source_name lines.old }
{
    let LoadedIndex { index, items } = match load_index(alloc, lines) {
        Ok(loaded) => loaded,
        Err(fault) => return Err(end_of(fault)),
    };
    let charge = columns_charge(&index);
    match open_charged(alloc, settings.limits, charge) {
        Ok((words, pass)) => Ok(Loaded {
            index,
            items,
            words,
            pass,
        }),
        Err(end) => Err(end),
    }
}
