//! The one charge of the columns.
ghost use Rattle.std.specs.Prelude.{◌≡◌, ◌<◌, ◌^◌, None, IfOk, IfErr};
ghost use Rattle.agg_spec.specs.Columns.{columns_refusal};
ghost use Rattle.breaker_tree.specs.Reopening.{HoldsColumns};
ghost use Rattle.agg_bulk.specs.Charging.{RefusesColumns};

use crate::end::LoadEnd;
use agg_model::{Child, Limits};
use breaker_tree::charge;
use breaker_words::{Pass, Words, set_ceiling};
use std::alloc::Global;

/// Opens the words of the breakers, and charges the columns at fielddata and at the parent. The pass has the whole cap.
/// A charge that is refused is held by nobody: words and pass are gone.
pub(crate) fn open_charged(
    alloc: Global,
    limits: Limits,
    amount: u64,
) -> Result<(Words, Pass), LoadEnd>
    requires { amount < 2 ^ 54 }
    ensures granted { IfOk result (λ r. columns_refusal limits amount ≡ None) }
    ensures pass { IfOk result (λ r. HoldsColumns limits amount r.0 r.1) }
    ensures refused { IfErr result (RefusesColumns limits amount) }
{
    let (words, mut pass) = Words::open(alloc, limits)?;
    set_ceiling(&words, &mut pass, amount.max(1));
    if amount > 0 {
        match charge(&words, &mut pass, Child::Fielddata, amount) {
            Ok(()) => {}
            Err(tripped) => return Err(LoadEnd::Columns(tripped)),
        }
    }
    Ok((words, pass))
}
