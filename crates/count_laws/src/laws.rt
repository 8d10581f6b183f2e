//! Laws of the definitions. Each function has a law as its contract, over all values of the definitions, and does nothing.
ghost use Rattle.std.specs.Prelude.{◌≡◌, ◌<◌, ◌+◌, ◌++◌, ◌∷◌, [], ℕ, IsTrue, List, Some, drop, flat_map, length, map, slice_get, sum_by, take};
ghost use Rattle.std.specs.List.{AllByRecursion};
ghost use Rattle.agg_model.specs.declared.answer.BucketAnswer.{out-BucketAnswer};
ghost use Rattle.agg_model.specs.declared.answer.NodeAnswer.{NodeAnswer, out-NodeAnswer};
ghost use Rattle.agg_model.specs.declared.aggregation.Agg.{Agg, out-Agg};
ghost use Rattle.agg_model.specs.declared.aggregation.Order.{Order};
ghost use Rattle.agg_model.specs.declared.aggregation.Search.{Search};
ghost use Rattle.agg_model.specs.declared.key.Key.{Key};
ghost use Rattle.agg_model.specs.declared.mapping.Mapping.{Mapping};
ghost use Rattle.agg_model.specs.declared.partial.Node.{Node};
ghost use Rattle.agg_evaluation.specs.Orders.{bucket_count};
ghost use Rattle.agg_evaluation.specs.Rows.{PlacedRow};
ghost use Rattle.agg_evaluation.specs.SearchFits.{search_fits};
ghost use Rattle.agg_evaluation.specs.TrueCounts.{BucketPath, aggs_at, kind_of, true_count, true_key_count};
ghost use Rattle.agg_evaluation.specs.Whole.{Parts};
ghost use Rattle.agg_evaluation.specs.Whole.{parts as node_parts};
ghost use Rattle.agg_spec.specs.Final.{Finisher, finisher, terms_answer};
ghost use Rattle.agg_spec.specs.Index.{Index, rows_in};
ghost use Rattle.agg_spec.specs.Outcome.{answer_of, whole_of};
ghost use Rattle.agg_spec.specs.Pages.{last_key, search_after};
ghost use Rattle.count_laws.specs.CompositeGroups.{answered_groups, composite_groups, page_size};
ghost use Rattle.count_laws.specs.Paths.{
  answer_of_shards,
  answered_by_shard,
  is_uncut,
  nodes_at,
  whole_of_shards,
};
ghost use Rattle.count_laws.specs.ReturnedPaths.{answers_at, is_returned, shows_all};
ghost use Rattle.count_laws.specs.Scans.{IsScan, page_groups};
ghost use Rattle.count_laws.specs.TermsErrors.{IsBoundOfAll, IsTermsByCount, IsWithinError};
ghost use Rattle.count_laws.specs.TermsSums.{
  answer_of_rows,
  below_minimum_count,
  minimum_of_terms,
  other_count,
  returned_count,
  whole_of_rows,
};

/// An answer to terms loses no count: what it returns, what it gives as other and what is below the minimum count add
/// up to what the shards returned and what they cut.
pub fn terms_lose_no_count()
    ensures { (name : List ℕ) (children : List Finisher) (size min_doc_count : ℕ) (order : List Order) (parts : Parts) →
        returned_count (terms_answer name children size min_doc_count order parts)
        + other_count (terms_answer name children size min_doc_count order parts)
        + below_minimum_count min_doc_count parts.buckets
        ≡ parts.cut + sum_by bucket_count parts.buckets }
{}

/// Along a path of returned buckets on which no terms were cut, each node of the whole is the whole of the answers to the
/// rows that each shard has at the end of the path.
pub fn an_uncut_path_reaches_the_whole_of_its_rows()
    ensures { (m : Mapping) (request : Search) (shards : List (List PlacedRow)) (path : BucketPath) (place : ℕ) (agg : Agg) →
        IsTrue (search_fits m request) → IsTrue (is_uncut request.aggs (whole_of_shards request shards).nodes path) →
        slice_get (aggs_at request.aggs path) place ≡ Some agg →
        slice_get (nodes_at (whole_of_shards request shards).nodes path) place ≡ Some (whole_of_rows agg (answered_by_shard request path shards)) }
{}

/// An answer to terms at the end of such a path has all keys of all shards: what it returns, what it gives as other and
/// what is below the minimum count add up to them, whatever the order and whatever the shards cut there.
pub fn terms_count_all_keys()
    ensures { (m : Mapping) (request : Search) (shards : List (List PlacedRow)) (path : BucketPath) (place : ℕ) (agg : Agg) (node : Node)
        (min_doc_count : ℕ) → IsTrue (search_fits m request) → IsTrue (is_uncut request.aggs (whole_of_shards request shards).nodes path) →
        slice_get (aggs_at request.aggs path) place ≡ Some agg →
        minimum_of_terms (out-Agg agg).kind ≡ Some min_doc_count →
        slice_get (nodes_at (whole_of_shards request shards).nodes path) place ≡ Some node →
        returned_count ((finisher agg).finish node) + other_count ((finisher agg).finish node) + below_minimum_count min_doc_count (node_parts node).buckets
        ≡ true_key_count shards request path place }
{}

/// By descending count each term that is returned at the end of such a path is within its error: its true count lies
/// between its count and that plus its error, whatever the shards cut there.
pub fn returned_terms_are_within_their_error()
    ensures { (m : Mapping) (request : Search) (shards : List (List PlacedRow)) (path : BucketPath) (place : ℕ) (agg : Agg) (node : Node) →
        IsTrue (search_fits m request) →
        IsTrue (is_uncut request.aggs (whole_of_shards request shards).nodes path) →
        slice_get (aggs_at request.aggs path) place ≡ Some agg → IsTermsByCount (out-Agg agg).kind →
        slice_get (nodes_at (whole_of_shards request shards).nodes path) place ≡ Some node →
        AllByRecursion (IsWithinError (λ key. true_count shards request (path ++ (place, key) ∷ []))) (out-NodeAnswer ((finisher agg).finish node)).buckets }
{}

/// Along a path of returned buckets on which no terms were cut, an answer has at each level the final answers to the rows that
/// each shard has there. The path may go through buckets that a histogram fills, which no shard has.
pub fn an_answer_has_the_answers_to_its_rows_below_returned_buckets()
    ensures { (m : Mapping) (request : Search) (shards : List (List PlacedRow)) (path : BucketPath) (place : ℕ) (agg : Agg) →
        IsTrue (search_fits m request) → IsTrue (is_returned request.aggs (whole_of_shards request shards).nodes path) →
        slice_get (aggs_at request.aggs path) place ≡ Some agg →
        slice_get (answers_at (answer_of_shards request shards).nodes path) place ≡ Some (answer_of_rows agg (answered_by_shard request path shards)) }
{}

/// An answer itself shows that a path is one: where it returns each bucket of the path, and its terms on the way leave out none.
pub fn an_answer_shows_where_nothing_was_cut()
    ensures { (m : Mapping) (request : Search) (shards : List (List PlacedRow)) (path : BucketPath) → IsTrue (search_fits m request) →
        IsTrue (shows_all (answer_of_shards request shards).nodes path) → IsTrue (is_returned request.aggs (whole_of_shards request shards).nodes path) }
{}

/// What an answer says of the rows at the end of such a path. Its hits are all rows that match. Its terms have all keys, whatever the
/// order and whatever the shards cut there, so that with a minimum of 1, as where none is given, the counts that it prints add up to
/// them. By descending count each term that it returns is within its own error and within that of the answer, and a term that no shard
/// returned has at most so many documents. Where no term was cut there either, each bucket that it returns, of whatever kind, has its
/// true count; one that was filled has that of no row.
pub fn counts_of_an_answer_are_true_below_returned_buckets()
    ensures hits { (request : Search) (shards : List (List PlacedRow)) → (answer_of_shards request shards).hits ≡ true_count shards request [] }
    ensures sums { (m : Mapping) (request : Search) (shards : List (List PlacedRow)) (path : BucketPath) (place : ℕ) (agg : Agg) (given : NodeAnswer)
        (min_doc_count : ℕ) → IsTrue (search_fits m request) → IsTrue (is_returned request.aggs (whole_of_shards request shards).nodes path) →
        slice_get (aggs_at request.aggs path) place ≡ Some agg →
        minimum_of_terms (out-Agg agg).kind ≡ Some min_doc_count →
        slice_get (answers_at (answer_of_shards request shards).nodes path) place ≡ Some given →
        returned_count given + other_count given
        + below_minimum_count min_doc_count (node_parts (whole_of_rows agg (answered_by_shard request path shards))).buckets
        ≡ true_key_count shards request path place }
    ensures printed_sums { (m : Mapping) (request : Search) (shards : List (List PlacedRow)) (path : BucketPath) (place : ℕ) (agg : Agg) (given : NodeAnswer) →
        IsTrue (search_fits m request) → IsTrue (is_returned request.aggs (whole_of_shards request shards).nodes path) →
        slice_get (aggs_at request.aggs path) place ≡ Some agg →
        minimum_of_terms (out-Agg agg).kind ≡ Some 1 →
        slice_get (answers_at (answer_of_shards request shards).nodes path) place ≡ Some given →
        returned_count given + other_count given ≡ true_key_count shards request path place }
    ensures errors { (m : Mapping) (request : Search) (shards : List (List PlacedRow)) (path : BucketPath) (place : ℕ) (agg : Agg) (given : NodeAnswer) →
        IsTrue (search_fits m request) → IsTrue (is_returned request.aggs (whole_of_shards request shards).nodes path) →
        slice_get (aggs_at request.aggs path) place ≡ Some agg → IsTermsByCount (out-Agg agg).kind →
        slice_get (answers_at (answer_of_shards request shards).nodes path) place ≡ Some given →
        AllByRecursion (IsWithinError (λ key. true_count shards request (path ++ (place, key) ∷ []))) (out-NodeAnswer given).buckets }
    ensures bound { (m : Mapping) (request : Search) (shards : List (List PlacedRow)) (path : BucketPath) (place : ℕ) (agg : Agg) (given : NodeAnswer) →
        IsTrue (search_fits m request) → IsTrue (is_returned request.aggs (whole_of_shards request shards).nodes path) →
        slice_get (aggs_at request.aggs path) place ≡ Some agg → IsTermsByCount (out-Agg agg).kind →
        slice_get (answers_at (answer_of_shards request shards).nodes path) place ≡ Some given →
        IsBoundOfAll (λ key. true_count shards request (path ++ (place, key) ∷ []))
        (node_parts (whole_of_rows agg (answered_by_shard request path shards))).buckets given }
    ensures counts { (m : Mapping) (request : Search) (shards : List (List PlacedRow)) (path : BucketPath) (place : ℕ) (agg : Agg) (given : NodeAnswer) →
        IsTrue (search_fits m request) → IsTrue (is_returned request.aggs (whole_of_shards request shards).nodes path) →
        slice_get (aggs_at request.aggs path) place ≡ Some agg →
        (node_parts (whole_of_rows agg (answered_by_shard request path shards))).cut ≡ 0 →
        slice_get (answers_at (answer_of_shards request shards).nodes path) place ≡ Some given →
        AllByRecursion (λ b. (out-BucketAnswer b).count ≡ true_count shards request (path ++ (place, (out-BucketAnswer b).key) ∷ []))
        (out-NodeAnswer given).buckets }
{}

/// The answer to a search of an index of which some shards are left is that of the rows of these shards, so what is said of answers
/// here is said of partial results: their counts are of the shards that did not fail.
pub fn partial_results_are_answers_of_the_shards_left()
    ensures whole { (index : Index) (request : Search) (left : List ℕ) →
        whole_of index request left ≡ whole_of_shards request (map (rows_in index) left) }
    ensures answer { (index : Index) (request : Search) (left : List ℕ) →
        answer_of index request left ≡ answer_of_shards request (map (rows_in index) left) }
{}

/// A page of a composite has the first groups of all that come after its key, in the order of the sources, each with its
/// true count.
pub fn a_page_has_the_first_groups()
    ensures { (m : Mapping) (request : Search) (shards : List (List PlacedRow)) (agg : Agg) (size : ℕ) (page : NodeAnswer) →
        IsTrue (search_fits m request) → slice_get request.aggs 0 ≡ Some agg → page_size (kind_of agg) ≡ Some size →
        slice_get (answer_of_shards request shards).nodes 0 ≡ Some page → answered_groups page ≡ take size (composite_groups shards request) }
{}

/// Behind the last key of such a page stand the groups that the page left: the next search has them, where the composite
/// is the only aggregation at the top.
pub fn the_next_page_goes_on()
    ensures { (m : Mapping) (request : Search) (shards : List (List PlacedRow)) (agg : Agg) (size : ℕ) (key : Key) →
        IsTrue (search_fits m request) → request.aggs ≡ agg ∷ [] → page_size (kind_of agg) ≡ Some size →
        last_key (answer_of_shards request shards).nodes ≡ Some key →
        composite_groups shards (search_after request key) ≡ drop size (composite_groups shards request) }
{}

/// Each page leaves fewer groups than there were before it, so that a scan comes to an end.
pub fn each_page_leaves_fewer_groups()
    ensures { (m : Mapping) (request : Search) (shards : List (List PlacedRow)) (agg : Agg) (size : ℕ) (key : Key) →
        IsTrue (search_fits m request) → request.aggs ≡ agg ∷ [] → page_size (kind_of agg) ≡ Some size →
        last_key (answer_of_shards request shards).nodes ≡ Some key →
        length (composite_groups shards (search_after request key)) < length (composite_groups shards request) }
{}

/// The pages of a scan, one after another, have all groups that come after the body's key, each once, in the order of the
/// sources and with its true count, where the composite is the only aggregation at the top.
pub fn pages_have_all_groups()
    ensures { (m : Mapping) (shards : List (List PlacedRow)) (request : Search) (pages : List Search) (agg : Agg) (size : ℕ) →
        AllByRecursion (λ page. IsTrue (search_fits m page)) pages → IsScan shards (Some request) pages →
        request.aggs ≡ agg ∷ [] → page_size (kind_of agg) ≡ Some size →
        flat_map (page_groups shards) pages ≡ composite_groups shards request }
{}
