//! Laws of keys: their one order, and the keys of a row.
ghost use Rattle.std.specs.Prelude.{◌≡◌, ◌<◌, ℕ, ℤ, List, IsTrue};
ghost use Rattle.std.specs.Cmp.{IsTotalOrder};
ghost use Rattle.std.specs.declared.cmp.Ordering.TheVariants.{Equal};
ghost use Rattle.agg_model.specs.declared.key.Key.{Key as AnyKey};
ghost use Rattle.agg_model.specs.declared.aggregation.Kind.{Kind};
ghost use Rattle.agg_model.specs.declared.aggregation.Spacing.TheVariants.{Numbers};
ghost use Rattle.agg_evaluation.specs.Intervals.{IsIntervalOf};
ghost use Rattle.agg_evaluation.specs.KeyOrder.{key_cmp};
ghost use Rattle.agg_evaluation.specs.Keys.{keys};
ghost use Rattle.agg_evaluation.specs.Rows.{PlacedRow};
ghost use Rattle.agg_evaluation.specs.Spacings.{interval_start};
ghost use Rattle.agg_evaluation.specs.Trees.{is_ascending};

use agg_model::Key;

/// The comparison of keys that code calls is the order of keys, which is total and tells all keys apart.
pub fn keys_have_one_order()
    ensures compared { (j k : AnyKey) → ⟦<Key as Ord>⟧.cmp j k ≡ key_cmp j k }
    ensures total { IsTotalOrder key_cmp }
    ensures exact { (j k : AnyKey) → key_cmp j k ≡ Equal → j ≡ k }
{}

/// The key of a number in a histogram is the one multiple of the interval, plus the offset, that is at most the
/// number and less than one interval below it.
pub fn histogram_key_is_the_one_multiple()
    ensures multiple { (interval offset : ℕ) (value : ℤ) → 0 < interval →
        IsIntervalOf interval offset value (interval_start (Numbers interval offset) value) }
    ensures one { (interval offset : ℕ) (value j k : ℤ) →
        IsIntervalOf interval offset value j → IsIntervalOf interval offset value k → j ≡ k }
{}

/// The keys of a row stand ascending, each once.
pub fn keys_of_a_row_are_distinct()
    ensures { (all : List PlacedRow) (kind : Kind) (row : PlacedRow) → IsTrue (is_ascending (keys all kind row)) }
{}
