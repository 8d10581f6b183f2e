//! What is handed out of a search whose results were all joined.
ghost use Rattle.std.specs.Prelude.{◌≡◌, ◌≤◌, [], length, sum_by, IsPermutation, IsSortedByKey};
ghost use Rattle.std.specs.Ordering.{nat_cmp};
ghost use Rattle.std.specs.Vec.{vec_capacity};
ghost use Rattle.agg_model.specs.declared.breaker.Child.TheVariants as child;
ghost use Rattle.agg_model.specs.declared.breaker.Which.TheVariants as which;
ghost use Rattle.agg_model.specs.declared.outcome.Failure.{Failure as AnyFailure};
ghost use Rattle.breaker_tree.specs.Charge.{IsGivenBack};
ghost use Rattle.breaker_words.specs.Passes.{IsOf};
ghost use Rattle.breaker_words.specs.Views.{hold_of};
ghost use Rattle.shard_pool.specs.Gathered.{lost};
ghost use Rattle.shard_pool.specs.Settled.{AreEnds, IsEndOf};

use crate::gathered::Gathered;
use crate::search_end::SearchEnd;
use agg_model::{Child, Failure, List};
use breaker_tree::give_back;
use breaker_words::{Pass, Trial, Words};
use std::alloc::Global;

/// The failures by ascending shard.
fn by_shard(failures: List<Failure>) -> List<Failure>
    ensures same { IsPermutation failures result }
    ensures ascending { IsSortedByKey (λ (f : AnyFailure). f.shard) nat_cmp result }
{
    let mut failures = failures.into_vec();
    failures.sort_unstable_by_key(|failure| failure.shard);
    List::from_vec(failures)
}

/// The end of a search. Where it was stopped, what its results cost is given back, and they are let go.
fn settle(alloc: Global, words: &Words, pass: &mut Pass, gathered: Gathered) -> SearchEnd
    requires of { IsOf words.now pass.old }
    requires rest { pass.old.view.trial ≡ Trial.Rest }
    requires held { lost gathered ≤ hold_of pass.old.view which.Request }
    ensures of { IsOf words.now pass.new }
    ensures given { IsGivenBack pass.old.view child.Request (lost gathered) pass.new.view }
    ensures end { IsEndOf gathered result }
{
    let stopped = gathered.is_stopped();
    let Gathered {
        parts,
        refused,
        memory,
        failures,
        held,
    } = gathered;
    let lost = if stopped { held } else { 0 };
    give_back(words, pass, Child::Request, lost);
    SearchEnd {
        parts: if stopped { List::new(alloc) } else { parts },
        refused,
        memory,
        failures: by_shard(failures),
    }
}

/// The ends of all searches. There is room for them.
pub(crate) fn settle_all(
    alloc: Global,
    words: &Words,
    pass: &mut Pass,
    gathered: Vec<Gathered>,
    mut ends: Vec<SearchEnd>,
) -> List<SearchEnd>
    requires of { IsOf words.now pass.old }
    requires rest { pass.old.view.trial ≡ Trial.Rest }
    requires held { sum_by lost gathered.items ≤ hold_of pass.old.view which.Request }
    requires empty { ends.items ≡ [] }
    requires room { length gathered.items ≤ vec_capacity ends }
    ensures of { IsOf words.now pass.new }
    ensures given { IsGivenBack pass.old.view child.Request (sum_by lost gathered.items) pass.new.view }
    ensures ends { AreEnds gathered.items result }
{
    for one in gathered {
        ends.push_reserved(settle(alloc, words, pass, one));
    }
    List::from_vec(ends)
}
