//! What running threads find of the machine of arrivals, whose laws stand in `arrival_moves::laws`. Each law is the
//! contract of a function that does nothing.
ghost use Rattle.std.specs.Prelude.{◌≡◌, ◌≢◌, ℕ, ◌+◌, ◌/◌, ◌≤◌, IsTrue, true, false, bit_or, List, [], ◌∷◌, ◌++◌, slice_index, slice_set};
ghost use mathlib.Core.Option.{some};
ghost use lib.ListN.{get_elem?};
ghost use Rattle.arrival_moves.specs.declared.item.Item.{Item};
ghost use Rattle.arrival_moves.specs.declared.label.Label.{Label};
ghost use Rattle.arrival_moves.specs.declared.plan.Plan.{Plan};
ghost use Rattle.arrival_moves.specs.declared.view.View.{View};
ghost use Rattle.arrival_moves.specs.AfterMove.{after_claim, after_take_task, after_stop, after_stopped, after_arrive};
ghost use Rattle.arrival_moves.specs.AfterMove.{after_reach_result, after_put, after_count, after_take_result, after_reach_batch, after_put_merged};
ghost use Rattle.arrival_moves.specs.AfterMove.{after_split, split_off, after_join, spent_view};
ghost use Rattle.arrival_moves.specs.Fairness.{IsFair};
ghost use Rattle.arrival_moves.specs.Guards.{may_put, may_put_merged};
ghost use Rattle.arrival_moves.specs.Hands.{find_item};
ghost use Rattle.arrival_moves.specs.Items.{is_claimed, is_loaded, is_arrived, is_put, is_batch, is_at_slot, is_due};
ghost use Rattle.arrival_moves.specs.Labels.{task_label};
ghost use Rattle.arrival_moves.specs.Moves.{Move, run, claim, take_task, stop, stopped, arrive, put, count, take_result, put_merged, split, join};
ghost use Rattle.arrival_moves.specs.Plans.{IsPlan, search_of};
ghost use Rattle.arrival_table.specs.declared.cell.Cell.{Cell};
ghost use Rattle.arrival_table.specs.declared.cell.Cell.TheVariants.{Vacant, Load, Outcome};
ghost use Rattle.arrival_table.specs.declared.known.Known.{Known};
ghost use Rattle.arrival_table.specs.Atomic.{Running, word_plus_one, ticket_word, count_word, stop_word};
ghost use Rattle.arrival_table.specs.Atomic.{at_word, taking, giving, with_views, IsHome, IsAfter, IsDeskAfter};
ghost use Rattle.arrival_table.specs.Outs.{knows, now_knows, now_has_out};
ghost use Rattle.arrival_table.specs.Steps.{IsReached, IsStateOf, result_slot, batch_slot};

use crate::cell::Labelled;

/// Words, slots and views that meet the rule of `Arrivals` are those of a fair state that a list of moves makes.
pub fn between_steps<A: Labelled, R: Labelled>()
    ensures { (p : Plan) (s : Running A R) → IsPlan p → IsReached A.label R.label p s
        → (ms : List Move) × IsStateOf A.label R.label p (run p ms) s × IsFair p (run p ms) }
{}

/// Each atomic step makes of the words, the slots at home and the views what one move makes of the state: it changes one
/// word, or takes or gives back one slot at a load, and changes the one view that stands in its clause. A split and a join
/// change two views alone; at a look, and where an emptied slot goes back, there is no move.
pub fn one_move_each<A: Labelled, R: Labelled>()
    ensures claim { (p : Plan) (ms : List Move) (s : Running A R) (i : ℕ) (d : Known) → IsDeskAfter A.label R.label p ms s i d → 1 ≤ d.view.left
        → let n = slice_index s.words 0 in
        IsAfter A.label R.label p (ms ++ claim i ∷ []) (at_word s 0 (word_plus_one n) i (now_knows d (after_claim p d.view n))) }
    ensures take_task { (p : Plan) (ms : List Move) (s : Running A R) (i : ℕ) (d : Known) (k : ℕ) (x : Item) → IsDeskAfter A.label R.label p ms s i d
        → find_item (is_claimed k) d.view.hand ≡ some x
        → (y : A) × IsHome s k (Load y) × (A.label y ≡ task_label k)
        × IsAfter A.label R.label p (ms ++ take_task i k ∷ []) (taking s k (Load y) i (now_has_out d (after_take_task d.view k) k)) }
    ensures stop { (p : Plan) (ms : List Move) (s : Running A R) (i : ℕ) (d : Known) (k : ℕ) (x : Item) → IsDeskAfter A.label R.label p ms s i d
        → find_item (is_loaded k) d.view.hand ≡ some x
        → let w = stop_word p (search_of p k) in
        IsAfter A.label R.label p (ms ++ stop i k ∷ []) (at_word s w (bit_or (slice_index s.words w) 1) i (now_knows d (after_stop d.view k))) }
    ensures stopped { (p : Plan) (ms : List Move) (s : Running A R) (i : ℕ) (d : Known) (q : ℕ) → IsDeskAfter A.label R.label p ms s i d
        → let w = stop_word p q in let n = slice_index s.words w in
        IsAfter A.label R.label p (ms ++ stopped i q ∷ []) (at_word s w n i (now_knows d (after_stopped d.view q n))) }
    ensures arrive { (p : Plan) (ms : List Move) (s : Running A R) (i : ℕ) (d : Known) (k : ℕ) (x : Item) → IsDeskAfter A.label R.label p ms s i d
        → find_item (is_loaded k) d.view.hand ≡ some x
        → let w = ticket_word (search_of p k) in let n = slice_index s.words w in
        IsAfter A.label R.label p (ms ++ arrive i k ∷ []) (at_word s w (word_plus_one n) i (now_knows d (after_arrive d.view k x (search_of p k) n))) }
    ensures put_first { (p : Plan) (ms : List Move) (s : Running A R) (i : ℕ) (d : Known) (q t : ℕ) (x : Item) (l : Label)
        → IsDeskAfter A.label R.label p ms s i d → find_item (is_arrived q t) d.view.hand ≡ some x → is_at_slot x ≡ false
        → let j = result_slot p q t in IsHome s j Vacant
        × IsAfter A.label R.label p (ms ++ put i q t l ∷ []) (taking s j Vacant i (now_has_out d (after_reach_result d.view q t x) j)) }
    ensures put_then { (p : Plan) (ms : List Move) (s : Running A R) (i : ℕ) (v : View) (q t : ℕ) (x : Item) (y : R)
        → let j = result_slot p q t in IsDeskAfter A.label R.label p ms s i (now_has_out (knows v) v j)
        → find_item (is_arrived q t) v.hand ≡ some x → is_at_slot x ≡ true → IsTrue (may_put v q (R.label y) x)
        → IsAfter A.label R.label p (ms ++ put i q t (R.label y) ∷ []) (giving s j (Outcome y) i (knows (after_put v q t))) }
    ensures count { (p : Plan) (ms : List Move) (s : Running A R) (i : ℕ) (d : Known) (q t : ℕ) (x : Item) → IsDeskAfter A.label R.label p ms s i d
        → find_item (is_put q t) d.view.hand ≡ some x
        → let w = count_word p q (t / p.batch) in let n = slice_index s.words w in
        IsAfter A.label R.label p (ms ++ count i q t ∷ []) (at_word s w (word_plus_one n) i (now_knows d (after_count p d.view q t (n + 1)))) }
    ensures take_result { (p : Plan) (ms : List Move) (s : Running A R) (i : ℕ) (d : Known) (q t : ℕ) (x : Item)
        → IsDeskAfter A.label R.label p ms s i d → find_item (is_batch q (t / p.batch)) d.view.hand ≡ some x → IsTrue (is_due t x)
        → let j = result_slot p q t in (y : R) × IsHome s j (Outcome y)
        × IsAfter A.label R.label p (ms ++ take_result i q t ∷ []) (taking s j (Outcome y) i (now_has_out d (after_take_result p d.view q t x (R.label y)) j)) }
    ensures put_merged_first { (p : Plan) (ms : List Move) (s : Running A R) (i : ℕ) (d : Known) (q b : ℕ) (x : Item) (l : Label)
        → IsDeskAfter A.label R.label p ms s i d → find_item (is_batch q b) d.view.hand ≡ some x → is_at_slot x ≡ false → IsTrue (may_put_merged l x)
        → let j = batch_slot p q b in IsHome s j Vacant
        × IsAfter A.label R.label p (ms ++ put_merged i q b l ∷ []) (taking s j Vacant i (now_has_out d (after_reach_batch d.view q b x) j)) }
    ensures put_merged_then { (p : Plan) (ms : List Move) (s : Running A R) (i : ℕ) (v : View) (q b : ℕ) (x : Item) (y : R)
        → let j = batch_slot p q b in IsDeskAfter A.label R.label p ms s i (now_has_out (knows v) v j)
        → find_item (is_batch q b) v.hand ≡ some x → is_at_slot x ≡ true → IsTrue (may_put_merged (R.label y) x)
        → IsAfter A.label R.label p (ms ++ put_merged i q b (R.label y) ∷ []) (giving s j (Outcome y) i (knows (after_put_merged v q b))) }
    ensures split { (p : Plan) (ms : List Move) (s : Running A R) (i : ℕ) (d : Known) (k : ℕ) → IsDeskAfter A.label R.label p ms s i d → k ≤ d.view.left
        → IsAfter A.label R.label p (ms ++ split i k ∷ [])
        (with_views s (slice_set s.views i (now_knows d (after_split d.view k)) ++ knows (split_off k) ∷ [])) }
    ensures join { (p : Plan) (ms : List Move) (s : Running A R) (i j : ℕ) (d : Known) (w : View) → IsDeskAfter A.label R.label p ms s i d → j ≢ i
        → get_elem? s.views j ≡ some (knows w) → w.hand ≡ []
        → IsAfter A.label R.label p (ms ++ join i j ∷ [])
        (with_views s (slice_set (slice_set s.views i (now_knows d (after_join d.view w))) j (knows spent_view))) }
    ensures give_back { (p : Plan) (ms : List Move) (s : Running A R) (i : ℕ) (v : View) (j : ℕ) (y : Cell A R)
        → IsDeskAfter A.label R.label p ms s i (now_has_out (knows v) v j) → IsAfter A.label R.label p ms (giving s j y i (knows v)) }
    ensures look { (p : Plan) (ms : List Move) (s : Running A R) (i : ℕ) (d : Known) → IsDeskAfter A.label R.label p ms s i d
        → IsAfter A.label R.label p ms (at_word s 0 (slice_index s.words 0) i d) }
{}
