//! Laws of merging: each function has a law as its contract, over all values of the definitions, and does nothing.
ghost use Rattle.std.specs.Prelude.{◌≡◌, List, [], ◌∷◌, ◌++◌, IsTrue};
ghost use Rattle.agg_model.specs.declared.aggregation.Search.{Search};
ghost use Rattle.agg_model.specs.declared.partial.Partial.{Partial};
ghost use Rattle.agg_evaluation.specs.Trees.{is_result_of};
ghost use Rattle.agg_evaluation.specs.Whole.{whole};

/// The whole of two is commutative and associative, and the whole of none is neutral.
pub fn merging_is_a_commutative_sum()
    ensures commutative { (search : Search) (p q : Partial) → whole search (p ∷ q ∷ []) ≡ whole search (q ∷ p ∷ []) }
    ensures associative { (search : Search) (p q r : Partial) →
        IsTrue (is_result_of search p) → IsTrue (is_result_of search r) →
        whole search (whole search (p ∷ q ∷ []) ∷ r ∷ []) ≡ whole search (p ∷ whole search (q ∷ r ∷ []) ∷ []) }
    ensures neutral { (search : Search) (p : Partial) → IsTrue (is_result_of search p) →
        whole search (whole search [] ∷ p ∷ []) ≡ p }
{}

/// One more result merged into the whole of some gives the whole of all, and merging the wholes of two lists gives the
/// whole of both lists.
pub fn merging_adds_up()
    ensures one_more { (search : Search) (ps : List Partial) (p : Partial) → IsTrue (is_result_of search p) →
        whole search (whole search ps ∷ p ∷ []) ≡ whole search (ps ++ p ∷ []) }
    ensures two_lists { (search : Search) (ps qs : List Partial) →
        whole search (whole search ps ∷ whole search qs ∷ []) ≡ whole search (ps ++ qs) }
{}
