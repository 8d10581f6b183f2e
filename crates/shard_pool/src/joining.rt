//! Results of a pool, one after another.
ghost use Rattle.std.specs.Prelude.{◌≡◌, ◌≤◌, ◌<◌, [], length, slice_index_or};
ghost use Rattle.agg_model.specs.declared.breaker.Which.TheVariants as which;
ghost use Rattle.breaker_words.specs.AfterStep.{after_join};
ghost use Rattle.breaker_words.specs.Passes.{IsOf, with_view};
ghost use Rattle.breaker_words.specs.Views.{hold_of};
ghost use Rattle.shard_pool.specs.Gathered.{AreGathered, IsAddedAt, no_results};
ghost use Rattle.shard_pool.specs.Joined.{IsJoined};
ghost use Rattle.shard_pool.specs.Results.{AreCarried, results_of, views_in, works_in};

use crate::gathered::Gathered;
use agg_model::{List, Which};
use arrival_table::Merged;
use breaker_words::{Pass, Trial, Words, join};
use pool_results::{Outcome, PoolCall};

/// Joins the pass of one result, and adds the result to those of its search.
fn join_one<J: PoolCall>(
    words: &Words,
    pass: &mut Pass,
    outcome: Outcome<J>,
    gathered: &mut Vec<Gathered>,
)
    requires words { words.now ≡ J.pool.words }
    requires of { IsOf words.now pass.old }
    requires rest { pass.old.view.trial ≡ Trial.Rest }
    requires search { outcome.work.search < length gathered.old.items }
    requires held { (slice_index_or gathered.old.items outcome.work.search no_results).held ≤ hold_of pass.old.view which.Request }
    ensures pass { pass.new ≡ with_view pass.old (after_join pass.old.view outcome.pass.view) }
    ensures added { IsAddedAt outcome.work (hold_of outcome.pass.view which.Request) gathered.old.items gathered.new.items }
{
    let Outcome {
        work,
        pass: other,
        of: _,
    } = outcome;
    let before = pass.hold(Which::Request);
    join(words, pass, other);
    let bytes = pass.hold(Which::Request) - before;
    let search = work.search as usize;
    gathered[search].add(work, bytes);
}

/// Joins the passes of all results, and gathers them search by search.
pub(crate) fn join_all<J: PoolCall>(
    words: &Words,
    pass: &mut Pass,
    results: List<Merged<Outcome<J>>>,
    gathered: &mut Vec<Gathered>,
)
    requires words { words.now ≡ J.pool.words }
    requires of { IsOf words.now pass.old }
    requires rest { pass.old.view.trial ≡ Trial.Rest }
    requires some { 1 ≤ pass.old.view.cap }
    requires none { AreGathered (length J.pool.searches) [] gathered.old.items }
    ensures joined { IsJoined J.pool.words pass.old.view (views_in (results_of results (λ o. record { work = o.work; pass = o.pass }))) pass.new }
    ensures gathered { AreGathered (length J.pool.searches) (works_in (results_of results (λ o. record { work = o.work; pass = o.pass }))) gathered.new.items }
    ensures carried { AreCarried J.pool (results_of results (λ o. record { work = o.work; pass = o.pass })) }
{
    for merged in results.into_vec() {
        join_one(words, pass, merged.result, gathered);
    }
}
