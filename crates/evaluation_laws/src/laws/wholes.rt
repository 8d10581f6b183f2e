//! Laws of the whole: it may be taken batch by batch, in any order.
ghost use Rattle.std.specs.Prelude.{◌≡◌, ◌≤◌, sum_by, List, [], ◌∷◌, IsPermutation, IsTrue, flat_map, map};
ghost use Rattle.std.specs.List.{list_all};
ghost use Rattle.agg_model.specs.declared.aggregation.Agg.{Agg};
ghost use Rattle.agg_model.specs.declared.aggregation.Search.{Search};
ghost use Rattle.agg_model.specs.declared.partial.Node.{Node};
ghost use Rattle.agg_model.specs.declared.partial.Partial.{Partial};
ghost use Rattle.agg_evaluation.specs.Cost.{cost, node_cost};
ghost use Rattle.agg_evaluation.specs.Trees.{is_result_of, is_tree_of};
ghost use Rattle.agg_evaluation.specs.Whole.{empty_node, empty_result, whole, whole_node};

/// The whole of the wholes of some batches is the whole of all their results.
pub fn whole_of_wholes_is_the_whole_of_all()
    ensures nodes { (agg : Agg) (batches : List (List Node)) →
        whole_node agg (map (whole_node agg) batches) ≡ whole_node agg (flat_map (λ batch. batch) batches) }
    ensures results { (search : Search) (batches : List (List Partial)) →
        whole search (map (whole search) batches) ≡ whole search (flat_map (λ batch. batch) batches) }
{}

/// The order of the results does not matter.
pub fn order_of_results_does_not_matter()
    ensures nodes { (agg : Agg) (xs ys : List Node) → IsPermutation xs ys → whole_node agg xs ≡ whole_node agg ys }
    ensures results { (search : Search) (xs ys : List Partial) → IsPermutation xs ys → whole search xs ≡ whole search ys }
{}

/// The whole of no result is the empty one.
pub fn whole_of_none_is_empty()
    ensures nodes { (agg : Agg) → whole_node agg [] ≡ empty_node agg }
    ensures results { (search : Search) → whole search [] ≡ empty_result search }
{}

/// The whole of one tree is that tree.
pub fn whole_of_one_is_that_one()
    ensures nodes { (agg : Agg) (x : Node) → IsTrue (is_tree_of agg x) → whole_node agg (x ∷ []) ≡ x }
    ensures results { (search : Search) (x : Partial) → IsTrue (is_result_of search x) → whole search (x ∷ []) ≡ x }
{}

/// The empty tree adds nothing.
pub fn empty_is_neutral()
    ensures nodes { (agg : Agg) (x : Node) → IsTrue (is_tree_of agg x) → whole_node agg (empty_node agg ∷ x ∷ []) ≡ x }
    ensures results { (search : Search) (x : Partial) → IsTrue (is_result_of search x) → whole search (empty_result search ∷ x ∷ []) ≡ x }
{}

/// Whatever the trees, their whole is a tree of the aggregation.
pub fn wholes_are_results()
    ensures nodes { (agg : Agg) (xs : List Node) → IsTrue (is_tree_of agg (whole_node agg xs)) }
    ensures results { (search : Search) (xs : List Partial) → IsTrue (is_result_of search (whole search xs)) }
{}

/// The whole of at least one result costs at most what they cost together.
pub fn wholes_cost_at_most_their_parts()
    ensures nodes { (agg : Agg) (x : Node) (xs : List Node) → IsTrue (list_all (is_tree_of agg) (x ∷ xs)) →
        node_cost (whole_node agg (x ∷ xs)) ≤ sum_by node_cost (x ∷ xs) }
    ensures results { (search : Search) (x : Partial) (xs : List Partial) → IsTrue (list_all (is_result_of search) (x ∷ xs)) →
        cost (whole search (x ∷ xs)) ≤ sum_by cost (x ∷ xs) }
{}
