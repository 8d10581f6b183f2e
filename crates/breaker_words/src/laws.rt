//! What holds of the breaker state after every list of moves, whoever makes each. `between_steps` and `one_move_each`
//! say why that is what running threads find: between any two atomic steps the words and the views of all passes are
//! those of such a state, and each atomic step is one move. Each law is the contract of a function that does nothing.
ghost use Rattle.std.specs.Prelude.{◌≡◌, ◌≢◌, ℕ, ◌+◌, ◌≤◌, ◌<◌, ◌^◌, List, ◌∷◌, [], ◌++◌, slice_index, slice_set, IsTrue};
ghost use Rattle.std.specs.List.{sum_by};
ghost use mathlib.Core.Option.{some};
ghost use lib.ListN.{get_elem?};
ghost use Rattle.agg_model.specs.declared.breaker.Limits.{Limits};
ghost use Rattle.agg_model.specs.declared.breaker.Child.{Child};
ghost use Rattle.agg_model.specs.declared.breaker.Which.{Which};
ghost use Rattle.agg_model.specs.declared.breaker.Which.TheVariants.{Parent};
ghost use Rattle.breaker_words.specs.declared.trial.Trial.TheVariants.{Rest, ChildGranted, ParentRefused, ParentGiven};
ghost use Rattle.breaker_words.specs.declared.view.View.{View};
ghost use Rattle.breaker_words.specs.Breakers.{place, counter_value};
ghost use Rattle.agg_model.specs.Breakers.{which_of, limit_of};
ghost use Rattle.breaker_words.specs.Views.{hold_of, granted_of, trips_of, most_of, seen_of, spent_view};
ghost use Rattle.breaker_words.specs.Trials.{is_returning};
ghost use Rattle.breaker_words.specs.AfterStep.{after_set_ceiling, after_split, split_off, after_join, after_try_child, after_take_back_child, after_try_parent, after_take_back_parent, after_give_parent, after_give_child};
ghost use Rattle.breaker_words.specs.Moves.{BreakerState, Move, look, set_ceiling, split, join, try_child, take_back_child, try_parent, take_back_parent, give_parent, give_child, opened, move, run};
ghost use Rattle.breaker_words.specs.Soundness.{IsBounded, IsSound};
ghost use Rattle.breaker_words.specs.Counts.{sum_over_moves, amount_granted, refusals, untaken_refusals};
ghost use Rattle.breaker_words.specs.Atomic.{Running, IsStateOf, IsPassAfter, word_plus, word_minus, after_atomic, with_views};
ghost use Rattle.breaker_words.specs.Steps.{IsReached};

/// Every list of moves leaves a sound state.
pub fn soundness()
    ensures { (l : Limits) (ms : List Move) → IsSound l (run l ms) }
{}

/// What all passes hold together at a breaker never passes its limit.
pub fn holds_within_limits()
    ensures { (l : Limits) (ms : List Move) (x : Which) → sum_by (λ v. hold_of v x) (run l ms).passes ≤ limit_of l x }
{}

/// Each pass holds no more than the limits, its granted totals and trips are at most 2^64 - 1, and what it was granted at the parent
/// is what it was granted at the children together, up to there.
pub fn each_pass_is_bounded()
    ensures { (l : Limits) (ms : List Move) (i : ℕ) (v : View) → get_elem? (run l ms).passes i ≡ some v → IsBounded l v }
{}

/// The granted totals of all passes at a breaker are together the sum of the amounts that the moves granted there,
/// both cut at 2^64 - 1.
pub fn granted_totals()
    ensures { (l : Limits) (ms : List Move) (x : Which) → counter_value (sum_by (λ v. granted_of v x) (run l ms).passes) ≡ counter_value (sum_over_moves amount_granted l (opened l) ms x) }
{}

/// The trips of all passes at a breaker, with one more for each refused trial that is not yet taken back there, are
/// together the number of its refusals among the moves, both cut at 2^64 - 1.
pub fn trip_counts()
    ensures { (l : Limits) (ms : List Move) (x : Which) → counter_value (sum_by (λ v. trips_of v x) (run l ms).passes + sum_by (λ v. untaken_refusals v x) (run l ms).passes) ≡ counter_value (sum_over_moves refusals l (opened l) ms x) }
{}

/// Where the pass `i` has the whole cap, it is alone.
pub fn whole_cap()
    ensures others { (l : Limits) (ms : List Move) (i j : ℕ) (v u : View) → get_elem? (run l ms).passes i ≡ some v → 1 ≤ v.total → v.cap ≡ v.total → get_elem? (run l ms).passes j ≡ some u → j ≢ i → (u.trial ≡ Rest) × ((x : Which) → hold_of u x ≡ 0) }
    ensures word { (l : Limits) (ms : List Move) (i : ℕ) (v : View) → get_elem? (run l ms).passes i ≡ some v → 1 ≤ v.total → v.cap ≡ v.total → v.trial ≡ Rest → (x : Which) → (run l ms).word_of x ≡ hold_of v x }
    // No trial of it saw more than it had standing itself.
    ensures seen { (l : Limits) (ms : List Move) (i : ℕ) (v : View) → get_elem? (run l ms).passes i ≡ some v → 1 ≤ v.total → v.cap ≡ v.total → (x : Which) → seen_of v x ≤ most_of v x }
{}

/// Words and views that meet the rule of `Words` are those of a sound state that a list of moves makes.
pub fn between_steps()
    ensures { (l : Limits) (s : Running) → IsReached l s → (ms : List Move) × IsStateOf (run l ms) s × IsSound l (run l ms) }
{}

/// Each atomic step makes of the words and the views what one move makes of the state. It changes the one word and the
/// one view that stand in its clause; a split and a join change two views and no word.
pub fn one_move_each()
    ensures try_child { (l : Limits) (ms : List Move) (s : Running) (i : ℕ) (v : View) (c : Child) (a : ℕ) → IsPassAfter l ms s i v → v.trial ≡ Rest → 1 ≤ a → v.accounts.parent.hold + a ≤ v.cap
        → let p = place (which_of c) in let n = slice_index s.words p in IsStateOf (move l (run l ms) (try_child i c a)) (after_atomic s p (word_plus n a) i (after_try_child l v c a (n + a))) }
    ensures take_back_child { (l : Limits) (ms : List Move) (s : Running) (i : ℕ) (v : View) → IsPassAfter l ms s i v → IsTrue (is_returning v.trial)
        → let p = place (which_of v.child) in let n = slice_index s.words p in IsStateOf (move l (run l ms) (take_back_child i)) (after_atomic s p (word_minus n v.amount) i (after_take_back_child v)) }
    ensures try_parent { (l : Limits) (ms : List Move) (s : Running) (i : ℕ) (v : View) → IsPassAfter l ms s i v → v.trial ≡ ChildGranted
        → let n = slice_index s.words (place Parent) in IsStateOf (move l (run l ms) (try_parent i)) (after_atomic s (place Parent) (word_plus n v.amount) i (after_try_parent l v (n + v.amount))) }
    ensures take_back_parent { (l : Limits) (ms : List Move) (s : Running) (i : ℕ) (v : View) → IsPassAfter l ms s i v → v.trial ≡ ParentRefused
        → let n = slice_index s.words (place Parent) in IsStateOf (move l (run l ms) (take_back_parent i)) (after_atomic s (place Parent) (word_minus n v.amount) i (after_take_back_parent v)) }
    ensures give_parent { (l : Limits) (ms : List Move) (s : Running) (i : ℕ) (v : View) (c : Child) (a : ℕ) → IsPassAfter l ms s i v → v.trial ≡ Rest → 1 ≤ a → a ≤ hold_of v (which_of c)
        → let n = slice_index s.words (place Parent) in IsStateOf (move l (run l ms) (give_parent i c a)) (after_atomic s (place Parent) (word_minus n a) i (after_give_parent v c a)) }
    ensures give_child { (l : Limits) (ms : List Move) (s : Running) (i : ℕ) (v : View) → IsPassAfter l ms s i v → v.trial ≡ ParentGiven
        → let p = place (which_of v.child) in let n = slice_index s.words p in IsStateOf (move l (run l ms) (give_child i)) (after_atomic s p (word_minus n v.amount) i (after_give_child v)) }

    // The ceiling's word stands behind the breakers', at 4.
    ensures set_ceiling { (l : Limits) (ms : List Move) (s : Running) (i : ℕ) (v : View) (t : ℕ) → IsPassAfter l ms s i v → v.trial ≡ Rest → 1 ≤ v.total → v.cap ≡ v.total → 1 ≤ t → v.accounts.parent.hold ≤ t → t ≤ 2 ^ 63
        → IsStateOf (move l (run l ms) (set_ceiling i t)) (after_atomic s 4 t i (after_set_ceiling v t)) }
    ensures look { (l : Limits) (ms : List Move) (s : Running) (i : ℕ) (v : View) (x : Which) → IsPassAfter l ms s i v → IsStateOf (move l (run l ms) (look i x)) s }
    ensures split { (l : Limits) (ms : List Move) (s : Running) (i : ℕ) (v : View) (k : ℕ) → IsPassAfter l ms s i v → v.trial ≡ Rest → 1 ≤ v.total → ((x : Which) → most_of v x + k ≤ v.cap)
        → IsStateOf (move l (run l ms) (split i k)) (with_views s (slice_set s.views i (after_split v k) ++ split_off v k ∷ [])) }
    ensures join { (l : Limits) (ms : List Move) (s : Running) (i j : ℕ) (v w : View) → IsPassAfter l ms s i v → IsPassAfter l ms s j w → j ≢ i → v.trial ≡ Rest → w.trial ≡ Rest → 1 ≤ v.total → 1 ≤ w.total
        → IsStateOf (move l (run l ms) (join i j)) (with_views s (slice_set (slice_set s.views i (after_join v w)) j spent_view)) }
{}
