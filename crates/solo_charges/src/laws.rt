//! Where a pass stands once a task or a merge has ended. Each law is the contract of a function that does nothing.
ghost use Rattle.std.specs.Prelude.{◌≡◌, ◌≤◌, ◌∷◌, flat_map, List, None};
ghost use Rattle.agg_evaluation.specs.Cost.{cost};
ghost use Rattle.agg_evaluation.specs.Rows.{PlacedRow};
ghost use Rattle.agg_evaluation.specs.Trace.{trace};
ghost use Rattle.agg_evaluation.specs.Whole.{whole};
ghost use Rattle.agg_model.specs.declared.aggregation.Search.{Search};
ghost use Rattle.agg_model.specs.declared.breaker.Limits.{Limits};
ghost use Rattle.agg_model.specs.declared.breaker.Tripped.{Tripped};
ghost use Rattle.agg_model.specs.declared.partial.Partial.{Partial};
ghost use Rattle.agg_spec.specs.Charges.{Run, run};
ghost use Rattle.agg_spec.specs.Reduction.{amount_step, merge_steps};
ghost use Rattle.batch_reduce.specs.Parts.{cost_of_parts};
ghost use Rattle.batch_reduce.specs.Reduced.{IsMerged, IsRefused as IsRefusedMerge};
ghost use Rattle.breaker_words.specs.declared.view.View.{View};
ghost use Rattle.solo_charges.specs.Ends.{IsEnded};
ghost use Rattle.solo_charges.specs.Standing.{Before, StandsAt};
ghost use Rattle.task_charges.specs.Ended.{IsDone, IsRefused};

/// A task that came to its end was granted all its steps. One that was refused was so at the step at which the run is, by the
/// same breaker and with the same numbers; and once what it held is given back, the pass stands where it stood.
pub fn tasks_end_as_their_runs()
    ensures done { (l : Limits) (before : Before) (v u : View) (r : Run) (search : Search) (rows : List PlacedRow) →
        StandsAt before v r → IsDone l v u search rows →
        StandsAt before u (run l r (flat_map amount_step (trace search rows))) }
    ensures refused { (l : Limits) (before : Before) (v u : View) (r : Run) (search : Search) (rows : List PlacedRow)
        (t : Tripped) → StandsAt before v r → v.cap ≡ v.total → IsRefused l v u (trace search rows) t →
        IsEnded before u (run l r (flat_map amount_step (trace search rows))) t }
    ensures left_out { (l : Limits) (before : Before) (v u : View) (r : Run) (search : Search) (rows : List PlacedRow)
        (t : Tripped) → StandsAt before v r → v.cap ≡ v.total → IsRefused l v u (trace search rows) t →
        StandsAt before u (record (run l r (flat_map amount_step (trace search rows))) { holds = r.holds; refused = None }) }
{}

/// A merge of two or more results leaves the pass where its steps leave the run: where it charges nothing, where it is done,
/// and where its charge is refused.
pub fn merges_end_as_their_runs()
    ensures free { (l : Limits) (before : Before) (v : View) (r : Run) (search : Search) (p q : Partial)
        (rest : List Partial) → StandsAt before v r → cost_of_parts (p ∷ q ∷ rest) ≡ 0 →
        StandsAt before v (run l r (merge_steps l search (p ∷ q ∷ rest))) }
    ensures done { (l : Limits) (before : Before) (v u : View) (r : Run) (search : Search) (p q : Partial)
        (rest : List Partial) → StandsAt before v r → 1 ≤ cost_of_parts (p ∷ q ∷ rest) →
        IsMerged l v (cost_of_parts (p ∷ q ∷ rest)) (cost (whole search (p ∷ q ∷ rest))) u →
        StandsAt before u (run l r (merge_steps l search (p ∷ q ∷ rest))) }
    ensures refused { (l : Limits) (before : Before) (v u : View) (r : Run) (search : Search) (p q : Partial)
        (rest : List Partial) (t : Tripped) → StandsAt before v r → v.cap ≡ v.total →
        1 ≤ cost_of_parts (p ∷ q ∷ rest) → IsRefusedMerge l v (cost_of_parts (p ∷ q ∷ rest)) t u →
        IsEnded before u (run l r (merge_steps l search (p ∷ q ∷ rest))) t }
{}
