//! Laws of pools, and of the merged results of a pool's table. Each function has laws as its contract, and does nothing.
ghost use Rattle.std.specs.Prelude.{◌≡◌, ◌≤◌, ◌<◌, ◌+◌, ◌*◌, ℕ, false, List, length, map, flat_map, sum, sum_by, IsPermutation, IsSortedByKey};
ghost use Rattle.std.specs.List.{AllByRecursion, range_with_len};
ghost use Rattle.std.specs.Ordering.{nat_cmp};
ghost use Rattle.agg_evaluation.specs.Ceiling.{greatest_of};
ghost use Rattle.agg_model.specs.declared.outcome.Failure.{Failure};
ghost use Rattle.agg_spec.specs.Failures.{AreFailures, unfailed};
ghost use Rattle.agg_spec.specs.Rises.{merge_charge};
ghost use Rattle.arrival_moves.specs.declared.plan.Plan.{Plan};
ghost use Rattle.arrival_table.specs.declared.table.Merged.{Merged};
ghost use Rattle.pool_results.specs.Carried.{has_failed};
ghost use Rattle.pool_results.specs.Pooled.{IsPoolOf};
ghost use Rattle.pool_results.specs.Pools.{IsPool, Pool, ceiling_at, shard_count};
ghost use Rattle.pool_results.specs.Runs.{failures_in, left_in, shards_in};
ghost use Rattle.pool_results.specs.declared.work.Work.{Work};
ghost use Rattle.pool_worker.specs.Plans.{plan_of};
ghost use Rattle.shard_columns.specs.declared.index.Index.{Index};
ghost use Rattle.shard_pool.specs.Batches.{batch_count};
ghost use Rattle.shard_pool.specs.Closed.{AreClosed, HaveAllTasks, IsPlanOf, runs_of, works, works_of};

/// Where the searches are made for the index, and each task has a ceiling and a pass that may hold at least that, what each pass
/// may hold is above nothing and has room for twice the task's answer, and the numbers of a whole fit whichever shards it is of.
pub fn searches_of_an_index_are_a_pool()
    ensures { (index : Index) (p : Pool) → IsPoolOf index p → IsPool p }
{}

/// The plan of a pool's table has the pool's tasks, search by search.
pub fn plan_has_all_tasks()
    ensures { (p : Pool) (size : ℕ) → IsPlanOf p size (plan_of p size) }
{}

/// The results of a closed table have each task once.
pub fn closed_tables_have_all_tasks()
    ensures { (p : Pool) (size : ℕ) (plan : Plan) (ms : List (Merged Work)) → IsPlanOf p size plan →
        AreClosed (λ (w : Work). w) p plan ms → HaveAllTasks p (works (λ (w : Work). w) ms) }
{}

/// Results that have each task once: the shards of one search's are all shards, rearranged. What is added up over their
/// shards is so over all tasks, and their ceilings add up to all ceilings.
pub fn all_tasks_add_up()
    ensures shards { (p : Pool) (ws : List Work) → HaveAllTasks p ws → (q : ℕ) → q < length p.searches →
        IsPermutation (shards_in (runs_of q ws)) (range_with_len 0 (shard_count p)) }
    ensures sums { (p : Pool) (ws : List Work) → HaveAllTasks p ws → (f : ℕ → ℕ → ℕ) →
        sum_by (λ (w : Work). sum_by (f w.search) (shards_in w.runs)) ws
        ≡ sum_by (λ q. sum_by (f q) (range_with_len 0 (shard_count p))) (range_with_len 0 (length p.searches)) }
    ensures ceilings { (p : Pool) (ws : List Work) → HaveAllTasks p ws → length p.ceilings ≡ length p.searches * shard_count p →
        sum_by (λ (w : Work). sum_by (ceiling_at p w.search) (shards_in w.runs)) ws ≡ sum p.ceilings }
{}

/// The failures of a search's results, once they are sorted by shard, are the failures of an answer, and the shards that
/// are left are those that no failure names.
pub fn shards_are_left_out_or_left()
    ensures failures { (p : Pool) (ws : List Work) → HaveAllTasks p ws → (q : ℕ) → q < length p.searches → (fs : List Failure) →
        IsPermutation (failures_in (runs_of q ws)) fs → IsSortedByKey (λ (f : Failure). f.shard) nat_cmp fs → AreFailures (shard_count p) fs }
    ensures left { (p : Pool) (ws : List Work) → HaveAllTasks p ws → (q : ℕ) → q < length p.searches → (fs : List Failure) →
        IsPermutation (failures_in (runs_of q ws)) fs →
        IsPermutation (unfailed p.index fs) (flat_map (λ (w : Work). left_in w.runs) (works_of q ws)) }
{}

/// A search has one result for each batch in a closed table, and none of no task.
pub fn each_batch_has_a_result()
    ensures count { (p : Pool) (size : ℕ) (plan : Plan) (ms : List (Merged Work)) → 2 ≤ size → IsPlanOf p size plan →
        AreClosed (λ (w : Work). w) p plan ms → (q : ℕ) → q < length p.searches →
        length (works_of q (works (λ (w : Work). w) ms)) ≡ batch_count (shard_count p) size }
    ensures some { (p : Pool) (size : ℕ) (plan : Plan) (ms : List (Merged Work)) → 2 ≤ size → IsPlanOf p size plan →
        AreClosed (λ (w : Work). w) p plan ms → (q : ℕ) →
        AllByRecursion (λ (w : Work). 1 ≤ length w.runs) (works_of q (works (λ (w : Work). w) ms)) }
{}

/// Whatever each task's answer costs, the merges of a search's batches are charged all costs but the greatest at least.
/// Where one batch has all tasks they are charged what one merge of all is.
pub fn merges_are_charged()
    ensures least { (p : Pool) (size : ℕ) (plan : Plan) (ms : List (Merged Work)) → 2 ≤ size → IsPlanOf p size plan →
        AreClosed (λ (w : Work). w) p plan ms → (q : ℕ) → q < length p.searches → (cost : ℕ → ℕ) →
        let costs = map cost (range_with_len 0 (shard_count p)) in
        let charge = sum_by (λ (w : Work). merge_charge (map cost (shards_in w.runs))) (works_of q (works (λ (w : Work). w) ms)) in
        sum costs ≤ charge + greatest_of costs }
    ensures alone { (p : Pool) (size : ℕ) (plan : Plan) (ms : List (Merged Work)) → 2 ≤ size → IsPlanOf p size plan →
        AreClosed (λ (w : Work). w) p plan ms → (q : ℕ) → q < length p.searches → (cost : ℕ → ℕ) → shard_count p ≤ size →
        let costs = map cost (range_with_len 0 (shard_count p)) in
        let charge = sum_by (λ (w : Work). merge_charge (map cost (shards_in w.runs))) (works_of q (works (λ (w : Work). w) ms)) in
        charge ≡ merge_charge costs }
{}

/// A search of which no result failed has none that says skipped.
pub fn none_is_skipped_but_beside_a_failure()
    ensures { (p : Pool) (size : ℕ) (plan : Plan) (ms : List (Merged Work)) → 2 ≤ size → IsPlanOf p size plan →
        AreClosed (λ (w : Work). w) p plan ms → (q : ℕ) →
        AllByRecursion (λ (w : Work). has_failed w ≡ false) (works_of q (works (λ (w : Work). w) ms)) →
        AllByRecursion (λ (w : Work). w.skipped ≡ false) (works_of q (works (λ (w : Work). w) ms)) }
{}
