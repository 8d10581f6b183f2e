//! Laws of what a task holds.
ghost use Rattle.std.specs.Prelude.{◌≡◌, ◌*◌, ◌≤◌, ◌*ℤ◌, ◌≤ℤ◌, ℕ, pos, List, Some};
ghost use Rattle.agg_model.specs.declared.mapping.FieldKind.{FieldKind as AnyFieldKind};
ghost use Rattle.agg_model.specs.declared.aggregation.Search.{Search};
ghost use Rattle.agg_evaluation.specs.Ceiling.{ceiling};
ghost use Rattle.agg_evaluation.specs.Cost.{cost};
ghost use Rattle.agg_evaluation.specs.Rows.{PlacedRow};
ghost use Rattle.agg_evaluation.specs.SearchFits.{IsMade};
ghost use Rattle.agg_evaluation.specs.Shard.{int_sum, shard_answer};
ghost use Rattle.agg_evaluation.specs.Trace.{built, peak, sum_before, trace};
ghost use Rattle.agg_evaluation.specs.Whole.{empty_result};

/// Over its trace a task never holds less than nothing, and at the end it holds the cost of the shard answer.
pub fn traces_come_to_the_cost()
    ensures never_negative { (search : Search) (all : List PlacedRow) (amounts : ℕ) → pos 0 ≤ℤ sum_before (trace search all) amounts }
    ensures in_the_end { (search : Search) (all : List PlacedRow) → int_sum (trace search all) ≡ pos (cost (shard_answer search all)) }
{}

/// Where a task has a ceiling, twice the most that it holds is at most that, and so is twice the cost of its answer.
/// The search is made for a mapping.
pub fn tasks_stay_below_their_ceilings()
    ensures peak { (kinds : List AnyFieldKind) (search : Search) (all : List PlacedRow) (bound : ℕ) → IsMade search →
        ceiling kinds search all ≡ Some bound → (pos 2 *ℤ peak search all) ≤ℤ pos bound }
    ensures answer { (kinds : List AnyFieldKind) (search : Search) (all : List PlacedRow) (bound : ℕ) → IsMade search →
        ceiling kinds search all ≡ Some bound → 2 * cost (shard_answer search all) ≤ bound }
{}

/// Before its first row a task has the nodes of the empty result.
pub fn tasks_begin_with_the_empty_result()
    ensures { (search : Search) (all : List PlacedRow) → (built search all 0).nodes ≡ (empty_result search).nodes }
{}
