//! The charge of a response.
ghost use Rattle.std.specs.Prelude.{◌≡◌, ◌≤◌, IfErr, IfOk, OnErr, OnOk};
ghost use Rattle.agg_model.specs.declared.breaker.Which.TheVariants as which;
ghost use Rattle.agg_spec.specs.Charges.{no_amounts};
ghost use Rattle.agg_spec.specs.Outcome.{response_length};
ghost use Rattle.breaker_words.specs.Views.{hold_of};
ghost use Rattle.solo_charges.specs.Alone.{IsAlone};
ghost use Rattle.wave_answers.specs.Charging.{HasPlace, IsRefusedCharge};
ghost use Rattle.wave_answers.specs.Rising.{HasRisen};

use agg_model::{Child, Outcome, Tripped, Which};
use breaker_tree::charge;
use breaker_words::{Pass, Words, look};
use solo_charges::make_room;
use std::alloc::AllocError;

/// The most bytes that are charged at once. No memory holds more.
const MOST: u64 = 1 << 62;

/// The bytes of a response; another outcome has none.
fn bytes_of(outcome: &Outcome) -> u64
    ensures { result ≡ response_length outcome.now }
{
    match outcome {
        Outcome::Response(line) => line.len() as u64,
        Outcome::Refused(_) | Outcome::Tripped(_) | Outcome::Memory => 0,
    }
}

/// Charges a response at request; another outcome has none. Tells the refusal where a breaker refused, and the pass holds what it
/// held then.
pub(crate) fn charge_response(
    words: &Words,
    pass: &mut Pass,
    outcome: &Outcome,
) -> Result<Result<(), Tripped>, AllocError>
    requires alone { IsAlone words.now pass.old }
    ensures alone { IsAlone words.now pass.new }
    ensures fielddata { hold_of pass.new.view which.Fielddata ≡ hold_of pass.old.view which.Fielddata }
    ensures inflight { hold_of pass.new.view which.Inflight ≡ hold_of pass.old.view which.Inflight }
    ensures kept { hold_of pass.old.view which.Request ≤ hold_of pass.new.view which.Request }
    ensures place { IfOk result (λ end. OnOk end (HasPlace words.now.limits pass.old.view (response_length outcome.now))) }
    ensures risen { IfOk result (λ end. OnOk end (HasRisen (response_length outcome.now) no_amounts pass.old.view pass.new.view)) }
    ensures refused { IfOk result (λ end. IfErr end (λ t.
        IsRefusedCharge words.now.limits pass.old.view (response_length outcome.now) 0 t pass.new.view)) }
    ensures some { IfOk result (λ end. OnErr end (1 ≤ response_length outcome.now)) }
{
    // What it holds at the parent is the sum of what it holds at the children.
    let _cap = pass.cap();
    // A look tells that what it holds is within the limits, and that no counter is above where it stops.
    look(words, pass, Which::Parent);
    let bytes = bytes_of(outcome);
    if bytes == 0 {
        return Ok(Ok(()));
    }
    if bytes > MOST {
        return Err(AllocError);
    }
    make_room(words, pass);
    Ok(charge(words, pass, Child::Request, bytes))
}
