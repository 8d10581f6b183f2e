//! The charges of a search beside its tasks and merges: its body and its response.
ghost use Rattle.std.specs.Prelude.{◌≡◌, ◌≢◌, ◌≤◌, ◌^◌, IfErr, OnOk};
ghost use Rattle.agg_model.specs.Breakers.{which_of};
ghost use Rattle.agg_model.specs.declared.breaker.Which.{Which as AnyWhich};
ghost use Rattle.agg_model.specs.declared.breaker.Which.TheVariants as which;
ghost use Rattle.agg_spec.specs.Charges.{charge_of};
ghost use Rattle.agg_spec.specs.Solo.{response_steps};
ghost use Rattle.breaker_words.specs.Views.{hold_of};
ghost use Rattle.solo_charges.specs.Alone.{IsAlone};
ghost use Rattle.agg_search.specs.Stepping.{Runs, StopsRunning};
ghost use Rattle.agg_search.specs.Stops.{IfRefused};

use crate::stop::Stop;
use agg_model::{Child, Outcome};
use breaker_words::{Pass, Words};
use solo_charges::charge_bytes;

/// The most bytes that are charged at once. No memory holds more.
const MOST: u64 = 1 << 62;

/// Charges bytes at the child and at the parent; 0 bytes are no charge.
pub(crate) fn charge(words: &Words, pass: &mut Pass, child: Child, bytes: u64) -> Result<(), Stop>
    requires { IsAlone words.now pass.old }
    ensures alone { IsAlone words.now pass.new }
    ensures others { (x : AnyWhich) → x ≢ which_of child → x ≢ which.Parent →
        hold_of pass.new.view x ≡ hold_of pass.old.view x }
    ensures runs { OnOk result (Runs words.now.limits (charge_of child bytes) pass.old.view pass.new.view) }
    ensures stops { IfErr result (λ stop. IfRefused stop
        (StopsRunning words.now.limits (charge_of child bytes) pass.old.view pass.new.view)) }
{
    if bytes > MOST {
        return Err(Stop::Memory);
    }
    match charge_bytes(words, pass, child, bytes) {
        Ok(()) => Ok(()),
        Err(tripped) => Err(Stop::Refused(tripped)),
    }
}

/// Charges a response; another outcome has none.
pub(crate) fn charge_response(words: &Words, pass: &mut Pass, outcome: &Outcome) -> Result<(), Stop>
    requires { IsAlone words.now pass.old }
    ensures alone { IsAlone words.now pass.new }
    ensures fielddata { hold_of pass.new.view which.Fielddata ≡ hold_of pass.old.view which.Fielddata }
    ensures runs { OnOk result (Runs words.now.limits (response_steps outcome.now) pass.old.view pass.new.view) }
    ensures stops { IfErr result (λ stop. IfRefused stop
        (StopsRunning words.now.limits (response_steps outcome.now) pass.old.view pass.new.view)) }
{
    match outcome {
        Outcome::Response(line) => charge(words, pass, Child::Request, line.len() as u64),
        Outcome::Refused(_) | Outcome::Tripped(_) | Outcome::Memory => Ok(()),
    }
}
