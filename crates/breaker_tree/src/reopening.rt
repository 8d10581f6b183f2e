// The breakers opened anew with other limits.
ghost use Rattle.std.specs.Prelude.{◌≡◌, ◌≤◌, ◌^◌, Some, None, IfErr, OnOk};
ghost use Rattle.agg_model.specs.declared.breaker.Which.TheVariants as at;
ghost use Rattle.breaker_words.specs.Passes.{IsOf};
ghost use Rattle.breaker_words.specs.Views.{hold_of, first_view};
ghost use Rattle.breaker_tree.specs.Reopening.{HoldsColumns, refusal_of_columns, Reopens};

use crate::charging::charge;
use agg_model::{Child, Limits, Tripped, Which};
use breaker_words::{Pass, Trial, Words, set_ceiling};
use std::alloc::Global;

/// What opening the breakers anew comes to.
#[derive(Drop)]
pub enum Reopened {
    /// New words with the new limits, and the one pass to them.
    Done {
        words: Words,
        pass: Pass,
    },
    /// The columns have no room. The old words and the old pass are as they were.
    Refused {
        tripped: Tripped,
        words: Words,
        pass: Pass,
    },
    /// Memory ran out. The old words and the old pass are as they were.
    Memory {
        words: Words,
        pass: Pass,
    },
}

/// Charges the columns alone, at words that nobody has charged yet. Of a charge that is refused nothing is held.
fn charge_columns(words: &Words, pass: &mut Pass, held: u64) -> Result<(), Tripped>
    requires of { IsOf words.now pass.old }
    requires first { pass.old.view ≡ first_view words.now.limits }
    requires bound { held ≤ 2 ^ 63 }
    ensures ok { OnOk result (HoldsColumns words.now.limits held words.now pass.new) }
    ensures light { OnOk result (refusal_of_columns words.now.limits held ≡ None) }
    ensures refused { IfErr result (λ t. refusal_of_columns words.now.limits held ≡ Some t) }
{
    set_ceiling(words, pass, held.max(1));
    if held == 0 {
        return Ok(());
    }
    charge(words, pass, Child::Fielddata, held)
}

/// Opens the breakers anew with other limits, for a pass that holds the columns and nothing else. All totals start anew: the
/// new pass was granted the columns alone, at fielddata and at the parent, and no breaker has refused it anything.
///
/// Where fielddata, or else the parent, has no room for the columns under the new limits, that is told, and the breakers are
/// as they were. It takes memory for the words alone.
pub fn reopen(alloc: Global, words: Words, pass: Pass, limits: Limits) -> Reopened
    requires of { IsOf words pass }
    requires whole { pass.view.cap ≡ pass.view.total }
    requires rest { pass.view.trial ≡ Trial.Rest }
    requires request { hold_of pass.view at.Request ≡ 0 }
    requires inflight { hold_of pass.view at.Inflight ≡ 0 }
    ensures { Reopens words pass limits (hold_of pass.view at.Fielddata) result }
{
    let held = pass.hold(Which::Fielddata);
    // No pass holds more than its ceiling.
    let _ceiling = (pass.cap(), pass.total());
    let Ok((now, mut by)) = Words::open(alloc, limits) else {
        return Reopened::Memory { words, pass };
    };
    match charge_columns(&now, &mut by, held) {
        Ok(()) => Reopened::Done {
            words: now,
            pass: by,
        },
        Err(tripped) => Reopened::Refused {
            tripped,
            words,
            pass,
        },
    }
}
