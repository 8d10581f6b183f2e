//! Laws of composite aggregations: their keys, and their page.
ghost use Rattle.std.specs.Prelude.{◌≡◌, ◌++◌, ℕ, List, IsTrue, Option, length, map, true};
ghost use Rattle.std.specs.List.{list_all};
ghost use Rattle.agg_model.specs.declared.aggregation.CompositeSource.{CompositeSource};
ghost use Rattle.agg_model.specs.declared.aggregation.Kind.TheVariants as kind;
ghost use Rattle.agg_model.specs.declared.key.Key.{Key};
ghost use Rattle.agg_model.specs.declared.key.Key.TheVariants as key;
ghost use Rattle.agg_evaluation.specs.Ceiling.{combination_count};
ghost use Rattle.agg_evaluation.specs.Groups.{all_keys};
ghost use Rattle.agg_evaluation.specs.KeyOrder.{has_key, key_cmp};
ghost use Rattle.agg_evaluation.specs.Keys.{combinations, keys, source_keys};
ghost use Rattle.agg_evaluation.specs.Rows.{PlacedRow};
ghost use Rattle.agg_evaluation.specs.Shard.{page};
ghost use Rattle.list_laws.specs.Sorting.{insert_once};
ghost use Rattle.agg_evaluation.specs.Trees.{is_ascending};
ghost use Rattle.agg_evaluation.specs.CompositeKeys.{is_composite_of};

/// A row has a key for each combination of its values, in their order, and each has a part for each
/// source.
pub fn composite_keys_are_combinations()
    ensures keys { (all : List PlacedRow) (sources : List CompositeSource) (size : ℕ)
        (after : Option Key) (row : PlacedRow) → keys all (kind.Composite sources size after) row
        ≡ map key.Many (combinations (map (source_keys row) sources)) }
    ensures count { (all : List PlacedRow) (sources : List CompositeSource) (size : ℕ)
        (after : Option Key) (row : PlacedRow) →
        length (keys all (kind.Composite sources size after) row) ≡ combination_count sources row }
    ensures parts { (all : List PlacedRow) (sources : List CompositeSource) (size : ℕ)
        (after : Option Key) (row : PlacedRow) →
        IsTrue (list_all (is_composite_of (length sources))
        (keys all (kind.Composite sources size after) row)) }
{}

/// A key of some rows that is not in their page does not come into the page of these and more. So a
/// page may be kept key by key: the page of one more key and the page so far is that of the key and
/// all keys so far.
pub fn a_key_once_outside_stays_outside()
    ensures outside { (all : List PlacedRow) (sources : List CompositeSource) (size : ℕ)
        (after : Option Key) (rows more : List PlacedRow) (q : Key) →
        let k = kind.Composite sources size after in has_key q (all_keys all k rows) ≡ true →
        has_key q (page sources size after (all_keys all k (rows ++ more))) ≡ true →
        has_key q (page sources size after (all_keys all k rows)) ≡ true }
    ensures one_more { (sources : List CompositeSource) (size : ℕ) (after : Option Key) (k : Key)
        (ks : List Key) → IsTrue (is_ascending ks) →
        IsTrue (list_all (is_composite_of (length sources)) ks) →
        IsTrue (is_composite_of (length sources) k) →
        page sources size after (insert_once key_cmp k (page sources size after ks))
        ≡ page sources size after (insert_once key_cmp k ks) }
{}
