//! Words with two passes that share a ceiling.
ghost use Rattle.std.specs.Prelude.{◌≡◌, ◌≤◌, ◌^◌, IfOk};
ghost use Rattle.breaker_words.specs.Passes.{IsOf};

use agg_model::Limits;
use breaker_words::{Pass, Trial, Words, set_ceiling, split};
use std::alloc::{AllocError, Global};

/// Two passes that hold nothing, of which the second has so much of the ceiling.
pub(crate) fn pair_of(
    alloc: Global,
    limits: Limits,
    ceiling: u64,
    second: u64,
) -> Result<(Words, Pass, Pass), AllocError>
    requires some { 1 ≤ ceiling }
    requires bound { ceiling ≤ 2 ^ 63 }
    requires part { second ≤ ceiling }
    ensures first { IfOk result (λ r. IsOf r.0 r.1 × (r.1.view.trial ≡ Trial.Rest)) }
    ensures second { IfOk result (λ r. IsOf r.0 r.2 × (r.2.view.trial ≡ Trial.Rest)) }
{
    let (words, mut a) = Words::open(alloc, limits)?;
    set_ceiling(&words, &mut a, ceiling);
    let b = split(&words, &mut a, second);
    Ok((words, a, b))
}
