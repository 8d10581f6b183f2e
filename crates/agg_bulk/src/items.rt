//! What becomes of each bulk action.
ghost use Rattle.std.specs.Prelude.{◌≡◌, OnOk};
ghost use Rattle.agg_model.specs.MappingOrder.{IsOrdered};
ghost use Rattle.agg_reading.specs.Script.{after};
ghost use Rattle.agg_reading.specs.Store.{applied};
ghost use Rattle.agg_reading.specs.declared.parts.IndexLine.{IndexLine};
ghost use Rattle.column_loading.specs.Loadings.{IsLoadingOf, store_of};
ghost use Rattle.agg_bulk.specs.Loading.{loading_of};

use agg_model::{Action, Applied, ItemEnd, Mapping};
use bulk_items::Items;
use column_loading::Loading;
use document_rows::{ItemFault, Scratch};
use std::alloc::AllocError;

/// Does one bulk action, and adds its item. The scratch is kept from one action to the next. After want of memory loading and
/// items are spent.
pub(crate) fn apply(
    mapping: &Mapping,
    loading: &mut Loading,
    items: &mut Items,
    action: Action,
    scratch: &mut Scratch,
) -> Result<(), AllocError>
    requires ordered { IsOrdered mapping.now }
    requires loading { IsLoadingOf mapping.now loading.old }
    ensures after { OnOk result ((index : IndexLine) →
        after action (applied mapping.now action (store_of mapping.now loading.old)) (loading_of index (store_of mapping.now loading.old) items.old)
        ≡ loading_of index (store_of mapping.now loading.new) items.new) }
    ensures loading { OnOk result (IsLoadingOf mapping.now loading.new) }
    ensures shards { OnOk result (loading.new.shards ≡ loading.old.shards) }
{
    // Before the action takes its id along. How it ends is told behind it.
    let created = ItemEnd::Applied(Applied::Created);
    items.push(action.kind, action.id.as_str(), created)?;
    let end = match loading.apply_with(mapping, action, scratch) {
        Ok(applied) => ItemEnd::Applied(applied),
        Err(ItemFault::Refused(refusal)) => ItemEnd::Refused(refusal),
        Err(ItemFault::Memory) => return Err(AllocError),
    };
    items.set_last_end(end)
}
