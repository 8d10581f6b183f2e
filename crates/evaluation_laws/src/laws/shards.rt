//! Laws of shard answers.
ghost use Rattle.std.specs.Prelude.{◌≡◌, ◌+◌, ℕ, List, [], IsTrue, true, length, map, flat_map, sum_by};
ghost use Rattle.agg_model.specs.declared.aggregation.Kind.{Kind};
ghost use Rattle.agg_model.specs.declared.aggregation.Search.{Search};
ghost use Rattle.agg_evaluation.specs.Counters.{raised_by};
ghost use Rattle.agg_evaluation.specs.Groups.{group, all_keys, total_key_count};
ghost use Rattle.agg_evaluation.specs.Keys.{keys};
ghost use Rattle.agg_evaluation.specs.Orders.{bucket_count};
ghost use Rattle.agg_evaluation.specs.Rows.{PlacedRow};
ghost use Rattle.agg_evaluation.specs.Shard.{Collector, is_terms, node_of, shard_answer};
ghost use Rattle.agg_evaluation.specs.Trace.{built};
ghost use Rattle.agg_evaluation.specs.Trees.{is_result_of};
ghost use Rattle.agg_evaluation.specs.Whole.{parts};

/// A shard answer has a tree of each aggregation of the search, and so has what is built on the way: buckets stand
/// ascending by key, each once, and those that exist from the start are all there.
pub fn shard_answers_are_results()
    ensures answer { (search : Search) (all : List PlacedRow) → IsTrue (is_result_of search (shard_answer search all)) }
    ensures built { (search : Search) (all : List PlacedRow) (rows : ℕ) → IsTrue (is_result_of search (built search all rows)) }
{}

/// Counters that are raised for each key of each row, one after another, come to the sizes of the groups.
pub fn counters_are_sizes_of_groups()
    ensures { (all : List PlacedRow) (kind : Kind) (rows : List PlacedRow) →
        raised_by (flat_map (keys all kind) rows) []
        ≡ map (λ key. (key, length (group all kind rows key))) (all_keys all kind rows) }
{}

/// The sizes of the groups add up to the count of all keys, and so do the counts that a terms aggregation returns in a
/// shard with what it cuts there.
pub fn counts_add_up()
    ensures groups { (all : List PlacedRow) (kind : Kind) (rows : List PlacedRow) →
        sum_by (λ key. length (group all kind rows key)) (all_keys all kind rows) ≡ total_key_count all kind rows }
    ensures terms { (all roots : List PlacedRow) (children : List Collector) (kind : Kind) (rows : List PlacedRow) → IsTrue (is_terms kind) →
        sum_by bucket_count (parts (node_of true all roots children kind rows)).buckets
        + (parts (node_of true all roots children kind rows)).cut ≡ total_key_count all kind rows }
{}
