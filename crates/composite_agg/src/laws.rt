//! Laws of composites.
ghost use Rattle.std.specs.Prelude.{◌≡◌, ◌∷◌, [], None, Some, map};
ghost use Rattle.agg_evaluation.specs.Orders.{bucket_key};
ghost use Rattle.composite_agg.specs.FirstPages.{new_bucket};
ghost use Rattle.composite_agg.specs.PageExample.{answers, key_of, offered, page_of_two};
ghost use Rattle.composite_agg.specs.declared.offered.Offered.TheVariants.{Entered, Outside};

/// A page of two that is offered 5, 3, 4 and 5 lets the first three enter, 4 in the place of 5, and then keeps 3 and 4.
pub fn a_page_of_two_keeps_the_first_two_keys()
    ensures answers { answers page_of_two (5 ∷ 3 ∷ 4 ∷ 5 ∷ [])
        ≡ Entered None ∷ Entered None ∷ Entered (Some (new_bucket (key_of 5) [])) ∷ Outside ∷ [] }
    ensures keys { map bucket_key (offered page_of_two (5 ∷ 3 ∷ 4 ∷ 5 ∷ [])).buckets ≡ key_of 3 ∷ key_of 4 ∷ [] }
{}
