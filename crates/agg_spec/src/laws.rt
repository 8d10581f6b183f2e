//! Laws of the definitions. Each function has a law as its contract, over all values of the definitions, and does nothing.
ghost use Rattle.std.specs.Prelude.{◌≡◌, ◌++◌, [], Bool, false, drop, flat_map, IsTrue, List, map, None, pos, Some, sum_by, ℤ};
ghost use Rattle.std.specs.List.{AllByRecursion};
ghost use Rattle.agg_model.specs.declared.aggregation.Kind.{Kind};
ghost use Rattle.agg_model.specs.declared.aggregation.Search.{Search};
ghost use Rattle.agg_model.specs.declared.answer.Answer.{Answer};
ghost use Rattle.agg_model.specs.declared.answer.BucketAnswer.{BucketAnswer, out-BucketAnswer};
ghost use Rattle.agg_model.specs.declared.pipeline.Pipe.{Pipe};
ghost use Rattle.agg_model.specs.declared.pipeline.PipePath.TheVariants as path;
ghost use Rattle.agg_model.specs.declared.breaker.Limits.{Limits};
ghost use Rattle.agg_model.specs.declared.breaker.Tripped.{Tripped};
ghost use Rattle.agg_spec.specs.Charges.{Run, Step, run};
ghost use Rattle.agg_spec.specs.Notes.{piped, pipe_out_of_range};
ghost use Rattle.agg_spec.specs.Pipelines.{cumulative_sums, derivatives, sum_of_values, values_of};
ghost use Rattle.agg_spec.specs.Remarks.{RemarkedBucket, arranged};
ghost use Rattle.agg_spec.specs.Reduction.{Going, Task, task_steps, after_tasks, after_batches};
ghost use Rattle.agg_spec.specs.Refusals.{RefusedAt};

/// The tasks of a search may be taken apart at any task, and its batches at any batch.
pub fn a_search_is_taken_apart_anywhere()
    ensures tasks { (limits : Limits) (search : Search) (going : Going) (before after : List Task) →
        after_tasks limits search going (before ++ after) ≡ after_tasks limits search (after_tasks limits search going before) after }
    ensures batches { (limits : Limits) (search : Search) (going : Going) (before after : List (List Task)) →
        after_batches limits search going (before ++ after) ≡ after_batches limits search (after_batches limits search going before) after }
{}

/// Where partial results are not allowed, the tasks charge as one run of all their steps, which ends at the first refusal.
pub fn tasks_end_at_the_first_refusal()
    ensures { (limits : Limits) (search : Search) (tasks : List Task) (going : Going) → search.partial ≡ false →
        (after_tasks limits search going tasks).run ≡ run limits going.run (flat_map task_steps tasks) }
{}

/// A refusal has one place among the steps of a run: all before it are granted, and it is refused by what is held then.
pub fn a_refusal_has_one_place()
    ensures { (limits : Limits) (steps : List Step) (start : Run) (t : Tripped) →
        start.refused ≡ None → (run limits start steps).refused ≡ Some t → RefusedAt limits start steps t }
{}

/// The changes of the running sums of some numbers are these numbers without the first.
pub fn changes_of_running_sums_are_the_values()
    ensures { (ns : List ℤ) → drop 1 (derivatives (map Some (cumulative_sums (map Some ns)))) ≡ map Some (drop 1 ns) }
{}

/// Sorting and cutting changes no value and no note of a bucket that stays: whatever is true of each bucket, with what
/// stands in its object, is true of each that is kept.
pub fn a_kept_bucket_stays_as_it_is()
    ensures { (kinds : List Kind) (pipes : List Pipe) (buckets : List RemarkedBucket) (p : RemarkedBucket → Bool) →
        AllByRecursion (λ b. IsTrue (p b)) buckets → AllByRecursion (λ b. IsTrue (p b)) (arranged kinds pipes buckets) }
{}

/// The sum of the counts of buckets is the number of documents in them, each as often as it has a key.
pub fn sum_of_counts_is_the_number_of_documents()
    ensures { (kinds : List Kind) (buckets : List BucketAnswer) →
        sum_of_values (values_of kinds path.Count buckets) ≡ pos (sum_by (λ b. (out-BucketAnswer b).count) buckets) }
{}

/// A search without pipelines has its answer as it is and no note, and none of its notes is out of range.
pub fn without_pipelines_an_answer_stays_as_it_is()
    ensures answer { (search : Search) (answer : Answer) → search.pipes ≡ [] → piped search answer ≡ record { answer = answer; notes = [] } }
    ensures range { (search : Search) (answer : Answer) → search.pipes ≡ [] → pipe_out_of_range search answer ≡ None }
{}
