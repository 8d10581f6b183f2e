//! Shards without roots, whose empty trees are what they answer.
ghost use Rattle.std.specs.Prelude.{◌≡◌, ◌+◌, IfErr, IfOk, OnOk, length, take};
ghost use Rattle.agg_evaluation.specs.Cost.{cost as cost_of};
ghost use Rattle.agg_evaluation.specs.Rows.{roots};
ghost use Rattle.agg_evaluation.specs.Shard.{shard_answer};
ghost use Rattle.agg_evaluation.specs.Trace.{built, task_overhead};
ghost use Rattle.breaker_words.specs.Passes.{IsOf};
ghost use Rattle.breaker_words.specs.declared.view.View.{View};
ghost use Rattle.collect_tree.specs.Room.{HoldsTask};
ghost use Rattle.collect_tree.specs.Stops.{StopsFrom};
ghost use Rattle.growth_laws.specs.Amounts.{amounts};
ghost use Rattle.shard_columns.specs.Made.{IsSearchFor};
ghost use Rattle.task_charges.specs.Charged.{HasPaid};

use crate::ending::Stop;
use agg_model::costs::TASK_BYTES;
use agg_model::{Partial, Search};
use breaker_words::{Pass, Trial, Words};
use partial_result::empty_nodes;
use shard_columns::Shard;
use std::alloc::Global;
use task_charges::{give_up, settle};

/// Answers for a shard without roots. Its task holds what the empty trees cost, `bytes`, and nothing is prepared for it.
pub(crate) fn answer_at_once(
    alloc: Global,
    words: &Words,
    pass: &mut Pass,
    shard: &Shard,
    search: &Search,
    bytes: u64,
) -> Result<Partial, Stop>
    requires of { IsOf words.now pass.old }
    requires rest { pass.old.view.trial ≡ Trial.Rest }
    requires made { IsSearchFor shard.now search.now }
    requires none { length (roots shard.now.rows) ≡ 0 }
    requires bytes { bytes ≡ cost_of (built search.now shard.now.rows 0) }
    requires held { HoldsTask shard.now search.now (task_overhead + bytes) pass.old.view }

    ensures answer { IfOk result (λ p. p ≡ shard_answer search.now shard.now.rows) }
    ensures paid { OnOk result ((v : View) →
        HasPaid words.now.limits v pass.old.view (take 1 (amounts search.now shard.now.rows)) →
        HasPaid words.now.limits v pass.new.view (amounts search.now shard.now.rows)) }
    ensures stopped { IfErr result (StopsFrom words.now.limits (amounts search.now shard.now.rows) 0
        pass.old.view pass.new.view) }
    ensures of { IsOf words.now pass.new }
    ensures trial { pass.new.view.trial ≡ Trial.Rest }
    ensures cap { pass.new.view.cap ≡ pass.old.view.cap }
{
    let held = TASK_BYTES + bytes;
    let Ok(nodes) = empty_nodes(alloc, &search.aggs) else {
        give_up(words, pass, held);
        return Err(Stop::Memory);
    };
    match settle(words, pass, held, bytes) {
        Ok(()) => Ok(Partial { hits: 0, nodes }),
        Err(tripped) => Err(Stop::Refused(tripped)),
    }
}
