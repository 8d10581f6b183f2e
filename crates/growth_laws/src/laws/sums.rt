//! Laws of what adds up over rows: metrics, key bytes, paths and matched roots.
ghost use Rattle.std.specs.Prelude.{◌≡◌, ◌+◌, ◌++◌, ℕ, List, [], ◌∷◌, Bool, false, IsTrue, Option, Some, flat_map, if◌then◌else◌, length, map, max, option_to_list, slice_get, unwrap_or};
ghost use Rattle.std.specs.List.{list_all, range_with_len};
ghost use Rattle.agg_model.specs.declared.aggregation.Kind.{Kind};
ghost use Rattle.agg_model.specs.declared.mapping.FieldKind.{FieldKind as AnyFieldKind};
ghost use Rattle.agg_model.specs.declared.mapping.FieldKind.TheVariants as field;
ghost use Rattle.agg_model.specs.declared.query.Query.{Query};
ghost use Rattle.agg_model.specs.declared.row.Scalar.{Scalar};
ghost use Rattle.agg_model.specs.declared.row.Scalar.TheVariants as scalar;
ghost use Rattle.agg_evaluation.specs.Ceiling.{Reached, field_bytes, greatest_of, handed_on, least_bytes, path_count};
ghost use Rattle.agg_evaluation.specs.Matching.{matched_roots, matches};
ghost use Rattle.agg_evaluation.specs.Rows.{PlacedRow, roots, values_of};
ghost use Rattle.agg_evaluation.specs.Shard.{metric_of};
ghost use Rattle.agg_evaluation.specs.Whole.{metric_sum};
ghost use Rattle.growth_laws.specs.FieldBytes.{is_number_or_flag};

/// The metric of two lists of values is the sum of their metrics.
pub fn metrics_add_up()
    ensures { (xs ys : List Scalar) → metric_of (xs ++ ys)
        ≡ metric_sum (metric_of xs ∷ metric_of ys ∷ []) }
{}

/// The bytes of a field's keys are those of the longest of its words and the missing one, and 8
/// where they are numbers or flags.
pub fn key_bytes_are_those_of_the_longest_word()
    ensures words { (kinds : List AnyFieldKind) (all : List PlacedRow) (f : ℕ)
        (missing : Option Scalar) (named words : List (List ℕ)) → slice_get kinds f
        ≡ Some field.Keyword → option_to_list missing ≡ map scalar.Word named →
        flat_map (values_of f) all ≡ map scalar.Word words → field_bytes kinds all f missing
        ≡ max (greatest_of (map length named)) (greatest_of (map length words)) }
    ensures others { (kinds : List AnyFieldKind) (all : List PlacedRow) (f : ℕ)
        (missing : Option Scalar) → least_bytes (slice_get kinds f) ≡ 8 →
        IsTrue (list_all is_number_or_flag (option_to_list missing ++ flat_map (values_of f) all)) →
        field_bytes kinds all f missing ≡ 8 }
{}

/// The paths to the keys of two lists of rows add up, so that they may be counted root by root.
pub fn paths_add_up()
    ensures handed { (kinds : List AnyFieldKind) (all : List PlacedRow) (k : Kind)
        (xs ys : List Reached) → handed_on kinds all k (xs ++ ys)
        ≡ handed_on kinds all k xs ++ handed_on kinds all k ys }
    ensures count { (kinds : List AnyFieldKind) (all : List PlacedRow) (k : Kind)
        (xs ys : List Reached) → path_count (handed_on kinds all k (xs ++ ys))
        ≡ path_count (handed_on kinds all k xs) + path_count (handed_on kinds all k ys) }
{}

/// The matched roots are the roots, place by place, whose bit is true.
pub fn matched_roots_are_the_set_bits()
    ensures { (all : List PlacedRow) (query : Query) (bits : List Bool) → bits
        ≡ map (matches all query) (roots all) → matched_roots all query
        ≡ flat_map (λ place. if unwrap_or (slice_get bits place) false
        then option_to_list (slice_get (roots all) place) else [])
        (range_with_len 0 (length (roots all))) }
{}
