//! The charges of bodies.
ghost use Rattle.std.specs.Prelude.{◌≡◌, ◌≤◌, All, IfOk, List as Items, length, map};
ghost use Rattle.agg_model.specs.declared.breaker.Which.TheVariants as which;
ghost use Rattle.agg_model.specs.declared.limits.TheConstants.{MAX_LINE};
ghost use Rattle.agg_model.specs.declared.settings.Settings.{Settings};
ghost use Rattle.agg_spec.specs.Index.{Index};
ghost use Rattle.agg_spec.specs.Outcome.{Request};
ghost use Rattle.breaker_words.specs.Views.{hold_of};
ghost use Rattle.solo_charges.specs.Alone.{IsAlone};
ghost use Rattle.wave_bodies.specs.Charged.{AreCharged};

use agg_model::{Bytes, Child, List, Tripped, Which};
use breaker_words::{Pass, Words, look};
use solo_charges::charge_bytes;
use std::alloc::{AllocError, Global};

/// Charges twice the bytes of each body at inflight requests, one body after another; an empty one is not charged. For each it
/// tells the refusal, where a breaker refused it; a refused body is not held, and those behind it are charged beside the others.
///
/// The pass is alone at the breakers, and holds nothing but the columns. No body has more than `MAX_LINE` bytes. Where memory is
/// wanting, some of the bodies may have been charged.
pub fn charge_bodies(
    alloc: Global,
    words: &Words,
    pass: &mut Pass,
    bodies: &List<Bytes>,
) -> Result<List<Option<Tripped>>, AllocError>
    requires alone { IsAlone words.now pass.old }
    requires lines { All (λ body. length body ≤ MAX_LINE) bodies.now }
    requires request { hold_of pass.old.view which.Request ≡ 0 }
    requires inflight { hold_of pass.old.view which.Inflight ≡ 0 }
    ensures alone { IsAlone words.now pass.new }
    ensures fielddata { hold_of pass.new.view which.Fielddata ≡ hold_of pass.old.view which.Fielddata }
    ensures request { hold_of pass.new.view which.Request ≡ 0 }
    ensures charged { IfOk result (λ refusals. (settings : Settings) (index : Index) (requests : Items Request) →
        settings.limits ≡ words.now.limits → map (λ r. r.bytes) requests ≡ map length bodies.now →
        AreCharged settings index requests pass.old.view pass.new.view refusals) }
{
    // What it holds at the parent is the sum of what it holds at the children, and no counter of it is above where counters stop.
    let _cap = pass.cap();
    look(words, pass, Which::Parent);
    let mut refusals = List::new(alloc);
    for body in bodies.as_slice() {
        let charged = charge_bytes(words, pass, Child::Inflight, 2 * body.len() as u64);
        refusals.push(charged.err())?;
    }
    Ok(refusals)
}
