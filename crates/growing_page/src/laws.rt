//! Laws of pages.
ghost use Rattle.std.specs.Prelude.{IsTrue, length};
ghost use Rattle.agg_model.specs.declared.aggregation.Agg.{Agg, out-Agg};
ghost use Rattle.composite_agg.specs.FirstPages.{empty_page};
ghost use Rattle.composite_page.specs.Pages.{is_cursor};
ghost use Rattle.shard_columns.specs.Columns.{Columns};
ghost use Rattle.shard_columns.specs.Made.{IsAggFor};

/// A composite that is made for the mapping of a shard can begin a page: the key after which the page begins, if any, has a part
/// for each source.
pub fn made_composites_can_begin()
    ensures { (shard : Columns) (agg : Agg) → IsAggFor shard agg →
        IsTrue (is_cursor (length (empty_page (out-Agg agg).kind).sources) (empty_page (out-Agg agg).kind).after) }
{}
