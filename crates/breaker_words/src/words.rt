// The words that threads share, a pass, and each step.
ghost use Rattle.std.specs.Prelude.{◌≡◌, ◌≢◌, ◌+◌, ◌≤◌, ◌<◌, ◌^◌, [], IfOk, IsTrue, nat_le};
ghost use Rattle.agg_model.specs.declared.breaker.Child.{Child};
ghost use Rattle.agg_model.specs.declared.breaker.Which.{Which};
ghost use Rattle.agg_model.specs.Breakers.{which_of, limit_of};
ghost use Rattle.breaker_words.specs.Views.{first_view, hold_of, granted_of, trips_of, most_of, seen_of};
ghost use Rattle.breaker_words.specs.Trials.{is_returning};
ghost use Rattle.breaker_words.specs.AfterStep.{after_try_child, after_take_back_child, after_try_parent, after_take_back_parent, after_give_parent, after_give_child, after_set_ceiling, after_split, split_off, after_join};
ghost use Rattle.breaker_words.specs.Soundness.{IsNear, IsBounded};
ghost use Rattle.breaker_words.specs.Passes.{WordsModel, PassModel, IsOf, with_view, IsLive};

use crate::breaker::{CEILING, PARENT, limit_of, place_of, which_of};
use crate::rule::{
    BreakerRule, GiveChild, GiveParent, GivenChild, JoinPasses, Look, SetCeiling, SplitCap,
    SplitSize, TakeBackChild, TakeBackParent, TryChild, TryParent,
};
use crate::trial::{Step, Trial};
use crate::view::View;
use agg_model::{Child, Limits, Which};
use atomic_table::{Seat, Table};
use std::alloc::{AllocError, Global};
use std::marker::{Brand, Model};

/// The words of the four breakers and of the ceiling, shared by `&`. Between any two steps of running threads they
/// and the views of all passes meet `BreakerRule`; `laws::between_steps` says what that means.
#[derive(Drop)]
pub struct Words {
    table: Table<(), View, Limits, BreakerRule, Global>,
    limits: Limits,
}

impl Model for Words {
    ghost Value = { WordsModel };

    ghost view = { λ w. record { table = w.table.shared.table_id; limits = w.limits } };

    ghost invariant = { λ w. (w.table.shared.table_id.words ≡ 5) × (w.table.shared.key ≡ w.limits) };
}

/// One caller's token, with which it charges. It may go to another thread. A pass that is dropped takes its cap and
/// all that it has standing with it, so no pass has the whole cap again.
pub struct Pass {
    known: View,
    seat: Seat<(), View>,
}

impl Model for Pass {
    ghost Value = { PassModel };

    ghost view = { λ p. record { table = p.seat.table_id; view = p.known } };

    ghost invariant = { λ p. (p.seat.me ≡ (p.known, [])) × IsLive p.known };
}

impl Drop for Pass {
    fn drop(self) {
        let Pass { known: _, seat: _ } = self;
    }
}

impl Pass {
    fn into_parts(self) -> (View, Seat<(), View>)
        ensures parts { (result.0 ≡ self.view) × (result.1.table_id ≡ self.table) × (result.1.me ≡ (self.view, [])) }
        ensures live { IsLive self.view }
    {
        let Pass { known, seat } = self;
        (known, seat)
    }

    /// The most that the pass may have standing at a breaker, in bytes.
    pub fn cap(&self) -> u64
        ensures cap { result ≡ self.now.view.cap }
        ensures live { IsLive self.now.view }
    {
        self.known.cap
    }

    /// The ceiling, in bytes: from 1 to 2^63. A pass whose cap is the total has the whole cap.
    pub fn total(&self) -> u64
        ensures total { result ≡ self.now.view.total }
        ensures range { (1 ≤ result) × (result ≤ 2 ^ 63) }
    {
        self.known.total
    }

    /// What the pass holds at the breaker, in bytes.
    pub fn hold(&self, which: Which) -> u64
        ensures { result ≡ hold_of self.now.view which }
    {
        self.known.accounts.account(which).hold
    }

    /// The sum of all that the pass was granted at the breaker, in bytes. It stops at 2^64 - 1.
    pub fn granted(&self, which: Which) -> u64
        ensures { result ≡ granted_of self.now.view which }
    {
        self.known.accounts.account(which).granted
    }

    /// How many charges of the pass the breaker refused. It stops at 2^64 - 1.
    pub fn trips(&self, which: Which) -> u64
        ensures { result ≡ trips_of self.now.view which }
    {
        self.known.accounts.account(which).trips
    }

    pub fn trial(&self) -> Trial
        ensures { result ≡ self.now.view.trial }
    {
        self.known.trial
    }

    /// The child of the charge or the return that is begun.
    pub fn trial_child(&self) -> Child
        requires { self.now.view.trial ≢ Trial.Rest }
        ensures { result ≡ self.now.view.child }
    {
        self.known.child
    }

    /// The amount of the charge or the return that is begun, in bytes: at least 1.
    pub fn trial_amount(&self) -> u64
        requires { self.now.view.trial ≢ Trial.Rest }
        ensures amount { result ≡ self.now.view.amount }
        ensures some { 1 ≤ result }
    {
        self.known.amount
    }
}

impl Words {
    /// New words and the one pass to them, which has the whole cap of a ceiling of 1.
    pub fn open(alloc: Global, limits: Limits) -> Result<(Words, Pass), AllocError>
        ensures words { IfOk result (λ r. r.0.limits ≡ limits) }
        ensures pass { IfOk result (λ r. IsOf r.0 r.1 × (r.1.view ≡ first_view limits)) }
    {
        let (table, seat) = Table::of_words(alloc, &[0, 0, 0, 0, 1], &limits)?;
        let known = View::new(limits, 1, 1);
        Ok((Words { table, limits }, Pass { known, seat }))
    }

    /// The limit with which the words were opened, in bytes. It makes no step.
    pub fn limit(&self, which: Which) -> u64
        ensures { result ≡ limit_of self.now.limits which }
    {
        limit_of(&self.limits, which)
    }
}

/// Adds the amount to the child's word. The total, which is the word that was found plus the amount, decides.
pub fn try_child(words: &Words, pass: &mut Pass, child: Child, amount: u64) -> Step
    requires of { IsOf words.now pass.old }
    requires rest { pass.old.view.trial ≡ Trial.Rest }
    requires amount { 1 ≤ amount }
    requires room { pass.old.view.accounts.parent.hold + amount ≤ pass.old.view.cap }
    ensures pass { pass.new ≡ with_view pass.old (after_try_child words.now.limits pass.old.view child amount result.total) }
    ensures granted { result.granted ≡ nat_le result.total (limit_of words.now.limits (which_of child)) }
    ensures least { hold_of pass.old.view (which_of child) + amount ≤ result.total }
    ensures most { result.total + pass.old.view.cap ≤ hold_of pass.old.view (which_of child) + amount + pass.old.view.total }
    ensures bounded { IsBounded words.now.limits pass.old.view }
{
    let which = which_of(child);
    let found = words
        .table
        .shared
        .fetch_add::<TryChild>(&mut pass.seat, place_of(which), amount);
    let total = found + amount;
    let granted = pass.known.try_child(child, amount, total);
    Step { total, granted }
}

/// Takes a charge back at the child, which refused it or has to follow its parent. Where the child refused, its trips
/// rise by one.
pub fn take_back_child(words: &Words, pass: &mut Pass)
    requires of { IsOf words.now pass.old }
    requires returning { IsTrue (is_returning pass.old.view.trial) }
    ensures { pass.new ≡ with_view pass.old (after_take_back_child pass.old.view) }
{
    let which = which_of(pass.known.child);
    let amount = pass.known.amount;
    words
        .table
        .shared
        .fetch_sub::<TakeBackChild>(&mut pass.seat, place_of(which), amount);
    pass.known.take_back_child();
}

/// Adds the amount that the child granted to the parent's word. Where the parent grants it too, it is held at both.
pub fn try_parent(words: &Words, pass: &mut Pass) -> Step
    requires of { IsOf words.now pass.old }
    requires granted { pass.old.view.trial ≡ Trial.ChildGranted }
    ensures pass { pass.new ≡ with_view pass.old (after_try_parent words.now.limits pass.old.view result.total) }
    ensures granted { result.granted ≡ nat_le result.total words.now.limits.parent }
    ensures least { pass.old.view.accounts.parent.hold + pass.old.view.amount ≤ result.total }
    ensures most { result.total + pass.old.view.cap ≤ pass.old.view.accounts.parent.hold + pass.old.view.amount + pass.old.view.total }
{
    let amount = pass.known.amount;
    let found = words
        .table
        .shared
        .fetch_add::<TryParent>(&mut pass.seat, PARENT, amount);
    let total = found + amount;
    let granted = pass.known.try_parent(total);
    Step { total, granted }
}

/// Takes a charge back at the parent, which refused it, and raises the parent's trips by one.
pub fn take_back_parent(words: &Words, pass: &mut Pass)
    requires of { IsOf words.now pass.old }
    requires refused { pass.old.view.trial ≡ Trial.ParentRefused }
    ensures { pass.new ≡ with_view pass.old (after_take_back_parent pass.old.view) }
{
    let amount = pass.known.amount;
    words
        .table
        .shared
        .fetch_sub::<TakeBackParent>(&mut pass.seat, PARENT, amount);
    pass.known.take_back_parent();
}

// The child is nothing that the step announces, so its call picks it.
fn give_parent_by<Z: GivenChild>(words: &Words, pass: &mut Pass, child: Child, amount: u64)
    requires whose { Z.whose ≡ child }
    requires of { IsOf words.now pass.old }
    requires rest { pass.old.view.trial ≡ Trial.Rest }
    requires amount { 1 ≤ amount }
    requires held { amount ≤ hold_of pass.old.view (which_of child) }
    ensures pass { pass.new ≡ with_view pass.old (after_give_parent pass.old.view child amount) }
    ensures enough { amount ≤ pass.old.view.accounts.parent.hold }
{
    words
        .table
        .shared
        .fetch_sub::<GiveParent<Z>>(&mut pass.seat, PARENT, amount);
    pass.known.give_parent(child, amount);
}

/// Begins to give back an amount that the child holds: subtracts it at the parent.
pub fn give_parent(words: &Words, pass: &mut Pass, child: Child, amount: u64)
    requires of { IsOf words.now pass.old }
    requires rest { pass.old.view.trial ≡ Trial.Rest }
    requires amount { 1 ≤ amount }
    requires held { amount ≤ hold_of pass.old.view (which_of child) }
    ensures pass { pass.new ≡ with_view pass.old (after_give_parent pass.old.view child amount) }
    ensures enough { amount ≤ pass.old.view.accounts.parent.hold }
{
    give_parent_by::<Brand>(words, pass, child, amount);
}

/// Ends a return: subtracts its amount at the child.
pub fn give_child(words: &Words, pass: &mut Pass)
    requires of { IsOf words.now pass.old }
    requires given { pass.old.view.trial ≡ Trial.ParentGiven }
    ensures { pass.new ≡ with_view pass.old (after_give_child pass.old.view) }
{
    let which = which_of(pass.known.child);
    let amount = pass.known.amount;
    words
        .table
        .shared
        .fetch_sub::<GiveChild>(&mut pass.seat, place_of(which), amount);
    pass.known.give_child();
}

/// Sets the ceiling, in bytes. The pass, which has the whole cap, has the whole cap of the new one.
pub fn set_ceiling(words: &Words, pass: &mut Pass, value: u64)
    requires of { IsOf words.now pass.old }
    requires rest { pass.old.view.trial ≡ Trial.Rest }
    requires whole { pass.old.view.cap ≡ pass.old.view.total }
    requires some { 1 ≤ value }
    requires held { pass.old.view.accounts.parent.hold ≤ value }
    requires bound { value ≤ 2 ^ 63 }
    ensures { pass.new ≡ with_view pass.old (after_set_ceiling pass.old.view value) }
{
    words
        .table
        .shared
        .swap::<SetCeiling>(&mut pass.seat, CEILING, value);
    pass.known.set_ceiling(value);
}

/// The breaker's word as it is read, in bytes: what all passes have standing there. With the whole cap it is the
/// pass's own hold.
pub fn look(words: &Words, pass: &mut Pass, which: Which) -> u64
    requires of { IsOf words.now pass.old }
    requires rest { pass.old.view.trial ≡ Trial.Rest }
    ensures same { pass.new ≡ pass.old }
    ensures near { IsNear pass.old.view which result }
    ensures whole { pass.old.view.cap ≡ pass.old.view.total → result ≡ hold_of pass.old.view which }
    // What the pass holds is within the limits.
    ensures bounded { IsBounded words.now.limits pass.old.view }
    // No trial of this pass saw more than it had standing itself.
    ensures seen { pass.old.view.cap ≡ pass.old.view.total → (x : Which) → seen_of pass.old.view x ≤ most_of pass.old.view x }
{
    words
        .table
        .shared
        .load::<Look>(&mut pass.seat, place_of(which))
}

// The cap is nothing that the step announces, so its call picks it.
fn split_by<Z: SplitSize>(words: &Words, pass: &mut Pass, cap: u64) -> Pass
    requires size { Z.size ≡ cap }
    requires of { IsOf words.now pass.old }
    requires rest { pass.old.view.trial ≡ Trial.Rest }
    requires room { (x : Which) → most_of pass.old.view x + cap ≤ pass.old.view.cap }
    ensures pass { pass.new ≡ with_view pass.old (after_split pass.old.view cap) }
    ensures result { result ≡ with_view pass.old (split_off pass.old.view cap) }
{
    let seat = words.table.shared.split_seat::<SplitCap<Z>>(&mut pass.seat);
    pass.known.cap -= cap;
    let known = View::new(pass.known.limits, cap, pass.known.total);
    Pass { known, seat }
}

/// Gives some of the pass's cap to a new pass, which holds nothing. The old pass keeps a cap of at least the most that
/// it had standing anywhere.
pub fn split(words: &Words, pass: &mut Pass, cap: u64) -> Pass
    requires of { IsOf words.now pass.old }
    requires rest { pass.old.view.trial ≡ Trial.Rest }
    requires room { (x : Which) → most_of pass.old.view x + cap ≤ pass.old.view.cap }
    ensures pass { pass.new ≡ with_view pass.old (after_split pass.old.view cap) }
    ensures result { result ≡ with_view pass.old (split_off pass.old.view cap) }
{
    split_by::<Brand>(words, pass, cap)
}

/// Adds the other pass to this one: caps, holds, granted totals and trips.
pub fn join(words: &Words, pass: &mut Pass, other: Pass)
    requires of { IsOf words.now pass.old }
    requires other { IsOf words.now other }
    requires rest { pass.old.view.trial ≡ Trial.Rest }
    requires other_rest { other.view.trial ≡ Trial.Rest }
    ensures { pass.new ≡ with_view pass.old (after_join pass.old.view other.view) }
{
    let (known, seat) = other.into_parts();
    words
        .table
        .shared
        .join_seat::<JoinPasses>(&mut pass.seat, seat);
    // A join tells nothing. This look tells that the caps are within the ceiling, so that they may be added.
    words.table.shared.load::<Look>(&mut pass.seat, 0);
    pass.known = pass.known.with(known);
}
