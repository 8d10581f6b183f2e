//! Laws of what a task charges while its tree grows.
ghost use Rattle.std.specs.Prelude.{◌≡◌, ◌⊎◌, ◌+◌, ◌-◌, ◌*◌, ◌<◌, ◌≤◌, ◌+ℤ◌, ◌-ℤ◌, ◌≤ℤ◌, ℕ, ℤ, pos, List, [], ◌∷◌, ◌++◌, Some, length, max, slice_get, take};
ghost use Rattle.agg_model.specs.declared.aggregation.Search.{Search};
ghost use Rattle.agg_model.specs.declared.breaker.Tripped.{Tripped};
ghost use Rattle.agg_model.specs.declared.breaker.Which.{Which};
ghost use Rattle.agg_model.specs.declared.mapping.FieldKind.{FieldKind as AnyFieldKind};
ghost use Rattle.agg_evaluation.specs.Ceiling.{ceiling};
ghost use Rattle.agg_evaluation.specs.Cost.{cost};
ghost use Rattle.agg_evaluation.specs.Rows.{PlacedRow};
ghost use Rattle.agg_evaluation.specs.SearchFits.{IsMade};
ghost use Rattle.agg_evaluation.specs.Shard.{int_sum, shard_answer};
ghost use Rattle.agg_evaluation.specs.Trace.{built, gross, peak, sum_before, task_overhead, trace};
ghost use Rattle.growth_laws.specs.Amounts.{amounts, charged, place_without_zeros, row_count, without_zeros};
ghost use Rattle.growth_laws.specs.Paid.{IsPaid, Standing, granted_total};
ghost use Rattle.growth_laws.specs.Refused.{IsRefusedAt, StaysWithin};

/// A trace is the amounts of a task that are not 0. There is one amount for the empty tree, one for
/// each row and one for the end; the first n + 1 come to the overhead and the cost of the tree of n
/// rows, and all of them to the cost of the answer.
pub fn amounts_add_up_to_the_tree()
    ensures trace { (search : Search) (all : List PlacedRow) → trace search all
        ≡ without_zeros (amounts search all) }
    ensures count { (search : Search) (all : List PlacedRow) → length (amounts search all)
        ≡ row_count search all + 2 }
    ensures tree { (search : Search) (all : List PlacedRow) (n : ℕ) → n ≤ row_count search all →
        int_sum (take (n + 1) (amounts search all))
        ≡ pos (task_overhead + cost (built search all n)) }
    ensures answer { (search : Search) (all : List PlacedRow) →
        int_sum (amounts search all) ≡ pos (cost (shard_answer search all)) }
{}

/// The first amount is the overhead and the cost of the empty tree, each row's amount is what it
/// adds to the cost of the tree, and the last leads from the tree to the answer.
pub fn each_row_charges_what_it_adds()
    ensures first { (search : Search) (all : List PlacedRow) →
        slice_get (amounts search all) 0 ≡ Some (pos (task_overhead + cost (built search all 0))) }
    ensures row { (search : Search) (all : List PlacedRow) (n : ℕ) → n < row_count search all →
        slice_get (amounts search all) (n + 1)
        ≡ Some (pos (cost (built search all (n + 1))) -ℤ pos (cost (built search all n))) }
    ensures last { (search : Search) (all : List PlacedRow) → slice_get (amounts search all)
        (row_count search all + 1)
        ≡ Some (pos (cost (shard_answer search all))
        -ℤ pos (task_overhead + cost (built search all (row_count search all)))) }
{}

/// The peak is the greatest sum of first amounts of the trace, and `gross` is the sum of its
/// charges. Each tree on the way, with the overhead, is at most the peak.
pub fn peak_is_the_greatest_sum()
    ensures bound { (search : Search) (all : List PlacedRow) (n : ℕ) →
        sum_before (trace search all) n ≤ℤ peak search all }
    ensures reached { (search : Search) (all : List PlacedRow) →
        (n : ℕ) × (peak search all ≡ sum_before (trace search all) n) }
    ensures trees { (search : Search) (all : List PlacedRow) (n : ℕ) → n ≤ row_count search all →
        pos (task_overhead + cost (built search all n)) ≤ℤ peak search all }
    ensures gross { (search : Search) (all : List PlacedRow) → gross search all
        ≡ pos (charged (trace search all)) }
{}

/// Where a task has a ceiling, twice the overhead and the tree of its first rows is at most that. The
/// search is made for a mapping.
pub fn each_tree_is_below_half_the_ceiling()
    ensures { (kinds : List AnyFieldKind) (search : Search) (all : List PlacedRow) (bound n : ℕ) →
        IsMade search → ceiling kinds search all ≡ Some bound →
        2 * (task_overhead + cost (built search all n)) ≤ bound }
{}

/// A refusal at a place among all amounts is one at a place of the trace. A task is refused only
/// where its peak, above what the breaker held before and with what others may hold, is above the
/// limit; what it was granted and then refused is at most all that it charges.
pub fn refusals_stand_in_the_trace()
    ensures place { (search : Search) (all : List PlacedRow) (hold limit : Which → ℕ)
        (others n granted : ℕ) (t : Tripped) →
        IsRefusedAt (amounts search all) hold limit others n granted t →
        IsRefusedAt (trace search all) hold limit others
        (place_without_zeros (amounts search all) n) granted t }
    ensures peak { (search : Search) (all : List PlacedRow) (hold limit : Which → ℕ)
        (others n granted : ℕ) (t : Tripped) →
        IsRefusedAt (trace search all) hold limit others n granted t →
        (pos (limit t.which) +ℤ pos 1) ≤ℤ (pos (hold t.which) +ℤ peak search all +ℤ pos others) }
    ensures gross { (search : Search) (all : List PlacedRow) (hold limit : Which → ℕ)
        (others n granted : ℕ) (t : Tripped)
        (refused : IsRefusedAt (trace search all) hold limit others n granted t) →
        pos (granted + refused.amount) ≤ℤ gross search all }
{}

/// What a breaker holds, has granted and held at most follows the amounts of a task, one after
/// another: a task goes from one hold to a greater one by a charge, and to a smaller one by a
/// return. Up to a place it stays within the limit. Zeros do not matter, and over a trace the most
/// is no more than before, or than the hold before with the peak.
pub fn amounts_are_paid_one_by_one()
    ensures none { (limit : ℕ) (s : Standing) → s.hold ≤ limit → s.granted ≤ 18446744073709551615 →
        IsPaid limit s s [] }
    ensures more { (limit : ℕ) (s t u : Standing) (ns : List ℤ) → IsPaid limit s t ns →
        (held wanted : ℕ) → held ≤ wanted → u.hold + held ≡ t.hold + wanted →
        u.granted ≡ granted_total (t.granted + (wanted - held)) →
        u.most ≤ max t.most (t.hold + (wanted - held)) → t.hold + (wanted - held) ≤ limit →
        IsPaid limit s u (ns ++ (pos wanted -ℤ pos held) ∷ []) }
    ensures less { (limit : ℕ) (s t u : Standing) (ns : List ℤ) → IsPaid limit s t ns →
        (held wanted : ℕ) → wanted < held → u.hold + held ≡ t.hold + wanted →
        u.granted ≡ t.granted → u.most ≡ t.most →
        IsPaid limit s u (ns ++ (pos wanted -ℤ pos held) ∷ []) }
    ensures within { (limit : ℕ) (s t : Standing) (ns : List ℤ) (place : ℕ) →
        IsPaid limit s t (take place ns) → StaysWithin ns place s.hold limit }
    ensures trace { (limit : ℕ) (s t : Standing) (ns : List ℤ) →
        IsPaid limit s t ns → IsPaid limit s t (without_zeros ns) }
    ensures peak { (search : Search) (all : List PlacedRow) (limit : ℕ) (s t : Standing) →
        IsPaid limit s t (trace search all) →
        (t.most ≤ s.most) ⊎ (pos t.most ≤ℤ (pos s.hold +ℤ peak search all)) }
{}
