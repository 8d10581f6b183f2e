//! What all amounts of a task come to. Each law is the contract of a function that does nothing.
ghost use Rattle.std.specs.Prelude.{ℕ, List, take};
ghost use Rattle.agg_evaluation.specs.Rows.{PlacedRow};
ghost use Rattle.agg_evaluation.specs.Trace.{trace};
ghost use Rattle.agg_model.specs.declared.aggregation.Search.{Search};
ghost use Rattle.agg_model.specs.declared.breaker.Limits.{Limits};
ghost use Rattle.agg_model.specs.declared.breaker.Tripped.{Tripped};
ghost use Rattle.breaker_words.specs.declared.view.View.{View};
ghost use Rattle.growth_laws.specs.Amounts.{amounts};
ghost use Rattle.growth_laws.specs.Paid.{Standing};
ghost use Rattle.task_charges.specs.Charged.{HasPaid};
ghost use Rattle.task_charges.specs.Ended.{IsBelowPeak, IsDone, IsMostAfter, IsRefused};

/// A task all of whose amounts were charged or given back is done: the cost of its answer is held, its charges were
/// granted, and its peak was within the limits.
pub fn paid_tasks_are_done()
    ensures { (l : Limits) (v u : View) (search : Search) (all : List PlacedRow) →
        HasPaid l v u (amounts search all) → IsDone l v u search all }
{}

/// A task that was refused at one of its amounts was refused at one of its trace, which has no zeros.
pub fn refusals_stand_in_the_trace()
    ensures { (l : Limits) (v u : View) (search : Search) (all : List PlacedRow) (t : Tripped) →
        IsRefused l v u (amounts search all) t → IsRefused l v u (trace search all) t }
{}

/// Whatever the end of a task, the most that stood at a breaker is no more than it was, or than what was held before with
/// the task's peak.
pub fn no_task_holds_more_than_its_peak()
    ensures amounts { (search : Search) (all : List PlacedRow) (n : ℕ) (s : Standing) (most : ℕ) →
        IsMostAfter (take n (amounts search all)) s most → IsBelowPeak search all s most }
    ensures trace { (search : Search) (all : List PlacedRow) (s : Standing) (most : ℕ) →
        IsMostAfter (trace search all) s most → IsBelowPeak search all s most }
{}
