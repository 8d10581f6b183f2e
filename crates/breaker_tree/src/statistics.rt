// What a pass that has the whole cap shows of the four breakers.
ghost use Rattle.std.specs.Prelude.{◌≡◌};
ghost use Rattle.breaker_words.specs.Passes.{IsOf};
ghost use Rattle.breaker_tree.specs.Statistics.{stats_of, totals_of};
ghost use Rattle.agg_model.specs.Breakers.{overhead_of};

use agg_model::costs::{FIELDDATA_OVERHEAD, INFLIGHT_OVERHEAD, PARENT_OVERHEAD, REQUEST_OVERHEAD};
use agg_model::{BreakerStats, Totals, Which};
use breaker_words::{Pass, Trial, Words, look};

// What a charge at the breaker is weighted by, in per cent.
fn overhead(which: Which) -> u32
    ensures { result ≡ overhead_of which }
{
    match which {
        Which::Request => REQUEST_OVERHEAD,
        Which::Fielddata => FIELDDATA_OVERHEAD,
        Which::Inflight => INFLIGHT_OVERHEAD,
        Which::Parent => PARENT_OVERHEAD,
    }
}

fn breaker_stats(words: &Words, pass: &mut Pass, which: Which) -> BreakerStats
    requires of { IsOf words.now pass.old }
    requires whole { pass.old.view.cap ≡ pass.old.view.total }
    requires rest { pass.old.view.trial ≡ Trial.Rest }
    ensures stats { result ≡ stats_of words.now.limits pass.old.view which }
    ensures same { pass.new ≡ pass.old }
{
    BreakerStats {
        limit: words.limit(which),
        estimated: look(words, pass, which),
        granted: pass.granted(which),
        overhead: overhead(which),
        tripped: pass.trips(which),
    }
}

/// The statistics of the four breakers: limits and words in bytes, and the granted totals and trips of the pass, which
/// has the whole cap.
pub fn stats(words: &Words, pass: &mut Pass) -> Totals
    requires of { IsOf words.now pass.old }
    requires whole { pass.old.view.cap ≡ pass.old.view.total }
    requires rest { pass.old.view.trial ≡ Trial.Rest }
    ensures totals { result ≡ totals_of words.now.limits pass.old.view }
    ensures same { pass.new ≡ pass.old }
{
    Totals {
        request: breaker_stats(words, pass, Which::Request),
        fielddata: breaker_stats(words, pass, Which::Fielddata),
        inflight: breaker_stats(words, pass, Which::Inflight),
        parent: breaker_stats(words, pass, Which::Parent),
    }
}

/// The same, as the last that is done with the words.
pub fn close(words: Words, mut pass: Pass) -> Totals
    requires of { IsOf words pass }
    requires whole { pass.view.cap ≡ pass.view.total }
    requires rest { pass.view.trial ≡ Trial.Rest }
    ensures { result ≡ totals_of words.limits pass.view }
{
    stats(&words, &mut pass)
}
