//! The charges of a task: what each root added to the trees, block by block and in each root by root, and at the end what leads
//! from the trees to the answer.
ghost use Rattle.std.specs.Prelude.{◌≡◌, ◌+◌, ◌-◌, ◌≤◌, ℤ, pos, ◌-ℤ◌, ◌++◌, ◌∷◌, [], IfErr, IfOk, List as AnyList, OnOk, length, map, take, true};
ghost use Rattle.std.specs.List.{list_any};
ghost use Rattle.agg_evaluation.specs.Cost.{cost as cost_of};
ghost use Rattle.agg_evaluation.specs.Matching.{matches};
ghost use Rattle.agg_evaluation.specs.Rows.{roots};
ghost use Rattle.agg_evaluation.specs.Shard.{int_sum, shard_answer};
ghost use Rattle.agg_evaluation.specs.Trace.{built, is_global as is_global_kind, matched as matched_roots, task_overhead};
ghost use Rattle.agg_model.specs.declared.aggregation.Agg.{out-Agg};
ghost use Rattle.agg_model.specs.declared.breaker.Which.TheVariants as which;
ghost use Rattle.breaker_words.specs.Passes.{IsOf};
ghost use Rattle.breaker_words.specs.Views.{hold_of};
ghost use Rattle.breaker_words.specs.declared.view.View.{View};
ghost use Rattle.collect_tree.specs.Blocks.{AreCosts, IsBlock, before_root};
ghost use Rattle.collect_tree.specs.Grown.{HasGrown};
ghost use Rattle.collect_tree.specs.Phases.{collected_before};
ghost use Rattle.collect_tree.specs.Room.{HoldsTask};
ghost use Rattle.collect_tree.specs.Stops.{IsStopped, PaysOn, StopsFrom};
ghost use Rattle.growth_laws.specs.Amounts.{amounts, row_count};
ghost use Rattle.shard_columns.specs.Made.{IsSearchFor};
ghost use Rattle.task_charges.specs.Charged.{HasPaid};

use crate::ending::Stop;
use crate::growth::Growth;
use crate::phase::{Phase, has_global};
use agg_model::costs::TASK_BYTES;
use agg_model::{Partial, Search};
use breaker_words::{Pass, Trial, Words};
use column_query::Bits;
use partial_result::cost;
use shard_columns::Shard;
use std::alloc::AllocError;
use task_charges::{give_up, settle};

/// How many places a block of roots has.
const BLOCK: u32 = 1024;

/// Holds `wanted` bytes in the place of the `held` ones. After most roots both are equal, and there is nothing to do.
fn settle_change(words: &Words, pass: &mut Pass, held: u64, wanted: u64) -> Result<(), Stop>
    requires of { IsOf words.now pass.old }
    requires rest { pass.old.view.trial ≡ Trial.Rest }
    requires held { held ≤ hold_of pass.old.view which.Request }
    requires room { pass.old.view.accounts.parent.hold + (wanted - held) ≤ pass.old.view.cap }

    ensures ok { OnOk result ((v : View) (ns : AnyList ℤ) → HasPaid words.now.limits v pass.old.view ns →
        HasPaid words.now.limits v pass.new.view (ns ++ (pos wanted -ℤ pos held) ∷ [])) }
    ensures err { IfErr result (λ stop. (v : View) (ns more : AnyList ℤ) → HasPaid words.now.limits v pass.old.view ns →
        pos held ≡ int_sum ns →
        IsStopped words.now.limits v pass.new.view (ns ++ (pos wanted -ℤ pos held) ∷ more) stop) }
    ensures of { IsOf words.now pass.new }
    ensures trial { pass.new.view.trial ≡ Trial.Rest }
    ensures cap { pass.new.view.cap ≡ pass.old.view.cap }
    ensures held { OnOk result
        (hold_of pass.new.view which.Request + held ≡ hold_of pass.old.view which.Request + wanted) }
    ensures held_at_parent { OnOk result
        (pass.new.view.accounts.parent.hold + held ≡ pass.old.view.accounts.parent.hold + wanted) }
{
    if wanted == held {
        return Ok(());
    }
    match settle(words, pass, held, wanted) {
        Ok(()) => Ok(()),
        Err(tripped) => Err(Stop::Refused(tripped)),
    }
}

/// Charges what each root of a block adds. The task holds `held` bytes, and `costs` are those of the trees after each of the
/// roots, which are those of a phase from the `first` on.
fn charge_block(
    words: &Words,
    pass: &mut Pass,
    shard: &Shard,
    search: &Search,
    phase: Phase,
    first: u64,
    held: u64,
    costs: &[u64],
) -> Result<(), Stop>
    requires of { IsOf words.now pass.old }
    requires rest { pass.old.view.trial ≡ Trial.Rest }
    requires made { IsSearchFor shard.now search.now }
    requires before { held ≡ task_overhead + cost_of (built search.now shard.now.rows (before_root search.now shard.now.rows phase first)) }
    requires costs { AreCosts search.now shard.now.rows (before_root search.now shard.now.rows phase first) (length costs.now) costs.now }
    requires within { before_root search.now shard.now.rows phase first + length costs.now ≤ row_count search.now shard.now.rows }
    requires held { HoldsTask shard.now search.now held pass.old.view }

    ensures held { OnOk result (HoldsTask shard.now search.now
        (task_overhead + cost_of (built search.now shard.now.rows (before_root search.now shard.now.rows phase first + length costs.now)))
        pass.new.view) }
    ensures paid { OnOk result (PaysOn words.now.limits (amounts search.now shard.now.rows)
        (before_root search.now shard.now.rows phase first)
        (before_root search.now shard.now.rows phase first + length costs.now) pass.old.view pass.new.view) }
    ensures stopped { IfErr result (StopsFrom words.now.limits (amounts search.now shard.now.rows)
        (before_root search.now shard.now.rows phase first) pass.old.view pass.new.view) }
    ensures of { IsOf words.now pass.new }
    ensures trial { pass.new.view.trial ≡ Trial.Rest }
    ensures cap { pass.new.view.cap ≡ pass.old.view.cap }
{
    let mut held = held;
    for place in 0..costs.len() {
        let wanted = TASK_BYTES + costs[place];
        settle_change(words, pass, held, wanted)?;
        held = wanted;
    }
    Ok(())
}

/// Collects the roots of a block, which are those of a phase from the `first` on, and charges what each adds.
fn collect_block(
    words: &Words,
    pass: &mut Pass,
    shard: &Shard,
    search: &Search,
    growth: &mut Growth,
    phase: Phase,
    first: u64,
    rows: &[u32],
) -> Result<(), Stop>
    requires of { IsOf words.now pass.old }
    requires rest { pass.old.view.trial ≡ Trial.Rest }
    requires made { IsSearchFor shard.now search.now }
    requires block { IsBlock shard.now search.now phase first rows.now }
    requires within { before_root search.now shard.now.rows phase first + length rows.now ≤ row_count search.now shard.now.rows }
    requires grown { HasGrown shard.now search.now (before_root search.now shard.now.rows phase first) growth.old }
    requires held { HoldsTask shard.now search.now (task_overhead + growth.old.bytes) pass.old.view }

    ensures grown { OnOk result
        (HasGrown shard.now search.now (before_root search.now shard.now.rows phase first + length rows.now) growth.new) }
    ensures held { OnOk result (HoldsTask shard.now search.now (task_overhead + growth.new.bytes) pass.new.view) }
    ensures paid { OnOk result (PaysOn words.now.limits (amounts search.now shard.now.rows)
        (before_root search.now shard.now.rows phase first)
        (before_root search.now shard.now.rows phase first + length rows.now) pass.old.view pass.new.view) }
    ensures stopped { IfErr result (StopsFrom words.now.limits (amounts search.now shard.now.rows)
        (before_root search.now shard.now.rows phase first) pass.old.view pass.new.view) }
    ensures of { IsOf words.now pass.new }
    ensures trial { pass.new.view.trial ≡ Trial.Rest }
    ensures cap { pass.new.view.cap ≡ pass.old.view.cap }
{
    let held = TASK_BYTES + growth.bytes;
    let Ok(costs) = growth.collect(shard, search, phase, first, rows) else {
        give_up(words, pass, held);
        return Err(Stop::Memory);
    };
    charge_block(
        words,
        pass,
        shard,
        search,
        phase,
        first,
        held,
        costs.as_slice(),
    )?;
    Ok(())
}

/// Puts the numbers of the matched roots from one place to before another in the place of what the list has.
fn list_matched(
    shard: &Shard,
    search: &Search,
    matched: &Bits,
    start: u32,
    end: u32,
    rows: &mut Vec<u32>,
) -> Result<(), AllocError>
    requires order { start ≤ end }
    requires within { end ≤ length (roots shard.now.rows) }
    requires matched { matched.now ≡ map (matches shard.now.rows search.now.query) (roots shard.now.rows) }
    ensures block { OnOk result (IsBlock shard.now search.now Phase.Matched (collected_before search.now shard.now.rows Phase.Matched start)
        rows.new.items) }
    ensures many { OnOk result (collected_before search.now shard.now.rows Phase.Matched start + length rows.new.items
        ≡ collected_before search.now shard.now.rows Phase.Matched end) }
{
    rows.clear();
    for place in start..end {
        if matched.get(place) {
            rows.push(shard.root(place))?;
        }
    }
    Ok(())
}

/// Puts the numbers of all roots from one place to before another in the place of what the list has.
fn list_roots(
    shard: &Shard,
    search: &Search,
    start: u32,
    end: u32,
    rows: &mut Vec<u32>,
) -> Result<(), AllocError>
    requires order { start ≤ end }
    requires within { end ≤ length (roots shard.now.rows) }
    requires global { list_any (λ a. is_global_kind (out-Agg a).kind) search.now.aggs ≡ true }
    ensures block { OnOk result (IsBlock shard.now search.now Phase.Global start rows.new.items) }
    ensures many { OnOk result (start + length rows.new.items ≡ end) }
{
    rows.clear();
    for place in start..end {
        rows.push(shard.root(place))?;
    }
    Ok(())
}

/// Collects the matched roots from one place to before another; `hits` are those before the first of these places, and the
/// answer is how many there are before the other.
fn collect_matched_block(
    words: &Words,
    pass: &mut Pass,
    shard: &Shard,
    search: &Search,
    matched: &Bits,
    growth: &mut Growth,
    rows: &mut Vec<u32>,
    start: u32,
    end: u32,
    hits: u64,
) -> Result<u64, Stop>
    requires of { IsOf words.now pass.old }
    requires rest { pass.old.view.trial ≡ Trial.Rest }
    requires made { IsSearchFor shard.now search.now }
    requires matched { matched.now ≡ map (matches shard.now.rows search.now.query) (roots shard.now.rows) }
    requires order { start ≤ end }
    requires within { end ≤ length (roots shard.now.rows) }
    requires hits { hits ≡ collected_before search.now shard.now.rows Phase.Matched start }
    requires grown { HasGrown shard.now search.now hits growth.old }
    requires held { HoldsTask shard.now search.now (task_overhead + growth.old.bytes) pass.old.view }

    ensures hits { IfOk result (λ hits. hits ≡ collected_before search.now shard.now.rows Phase.Matched end) }
    ensures grown { IfOk result (λ hits. HasGrown shard.now search.now hits growth.new) }
    ensures held { OnOk result (HoldsTask shard.now search.now (task_overhead + growth.new.bytes) pass.new.view) }
    ensures paid { IfOk result (λ more. PaysOn words.now.limits (amounts search.now shard.now.rows) hits more pass.old.view pass.new.view) }
    ensures stopped { IfErr result (StopsFrom words.now.limits (amounts search.now shard.now.rows) hits
        pass.old.view pass.new.view) }
    ensures of { IsOf words.now pass.new }
    ensures trial { pass.new.view.trial ≡ Trial.Rest }
    ensures cap { pass.new.view.cap ≡ pass.old.view.cap }
{
    let held = TASK_BYTES + growth.bytes;
    if list_matched(shard, search, matched, start, end, rows).is_err() {
        give_up(words, pass, held);
        return Err(Stop::Memory);
    }
    collect_block(
        words,
        pass,
        shard,
        search,
        growth,
        Phase::Matched,
        hits,
        rows.as_slice(),
    )?;
    let more = hits + rows.len() as u64;
    Ok(more)
}

/// Collects all roots from one place to before another, where there is a global aggregation.
fn collect_global_block(
    words: &Words,
    pass: &mut Pass,
    shard: &Shard,
    search: &Search,
    growth: &mut Growth,
    rows: &mut Vec<u32>,
    start: u32,
    end: u32,
) -> Result<(), Stop>
    requires of { IsOf words.now pass.old }
    requires rest { pass.old.view.trial ≡ Trial.Rest }
    requires made { IsSearchFor shard.now search.now }
    requires global { list_any (λ a. is_global_kind (out-Agg a).kind) search.now.aggs ≡ true }
    requires order { start ≤ end }
    requires within { end ≤ length (roots shard.now.rows) }
    requires grown { HasGrown shard.now search.now (collected_before search.now shard.now.rows Phase.Global start) growth.old }
    requires held { HoldsTask shard.now search.now (task_overhead + growth.old.bytes) pass.old.view }

    ensures grown { OnOk result
        (HasGrown shard.now search.now (collected_before search.now shard.now.rows Phase.Global end) growth.new) }
    ensures held { OnOk result (HoldsTask shard.now search.now (task_overhead + growth.new.bytes) pass.new.view) }
    ensures paid { OnOk result (PaysOn words.now.limits (amounts search.now shard.now.rows)
        (collected_before search.now shard.now.rows Phase.Global start)
        (collected_before search.now shard.now.rows Phase.Global end) pass.old.view pass.new.view) }
    ensures stopped { IfErr result (StopsFrom words.now.limits (amounts search.now shard.now.rows)
        (collected_before search.now shard.now.rows Phase.Global start) pass.old.view pass.new.view) }
    ensures of { IsOf words.now pass.new }
    ensures trial { pass.new.view.trial ≡ Trial.Rest }
    ensures cap { pass.new.view.cap ≡ pass.old.view.cap }
{
    let held = TASK_BYTES + growth.bytes;
    if list_roots(shard, search, start, end, rows).is_err() {
        give_up(words, pass, held);
        return Err(Stop::Memory);
    }
    collect_block(
        words,
        pass,
        shard,
        search,
        growth,
        Phase::Global,
        start as u64,
        rows.as_slice(),
    )?;
    Ok(())
}

/// Collects the matched roots, and counts them.
fn collect_matched(
    words: &Words,
    pass: &mut Pass,
    shard: &Shard,
    search: &Search,
    matched: &Bits,
    growth: &mut Growth,
) -> Result<u64, Stop>
    requires of { IsOf words.now pass.old }
    requires rest { pass.old.view.trial ≡ Trial.Rest }
    requires made { IsSearchFor shard.now search.now }
    requires matched { matched.now ≡ map (matches shard.now.rows search.now.query) (roots shard.now.rows) }
    requires grown { HasGrown shard.now search.now 0 growth.old }
    requires held { HoldsTask shard.now search.now (task_overhead + growth.old.bytes) pass.old.view }

    ensures hits { IfOk result (λ hits. hits ≡ length (matched_roots search.now shard.now.rows)) }
    ensures grown { OnOk result
        (HasGrown shard.now search.now (length (matched_roots search.now shard.now.rows)) growth.new) }
    ensures held { OnOk result (HoldsTask shard.now search.now (task_overhead + growth.new.bytes) pass.new.view) }
    ensures paid { OnOk result (PaysOn words.now.limits (amounts search.now shard.now.rows) 0
        (length (matched_roots search.now shard.now.rows)) pass.old.view pass.new.view) }
    ensures stopped { IfErr result (StopsFrom words.now.limits (amounts search.now shard.now.rows) 0
        pass.old.view pass.new.view) }
    ensures of { IsOf words.now pass.new }
    ensures trial { pass.new.view.trial ≡ Trial.Rest }
    ensures cap { pass.new.view.cap ≡ pass.old.view.cap }
{
    let count = shard.roots();
    let mut rows = Vec::new(growth.alloc);
    let mut hits = 0;
    let mut start = 0;
    while start < count {
        let end = start.saturating_add(BLOCK).min(count);
        let more = collect_matched_block(
            words, pass, shard, search, matched, growth, &mut rows, start, end, hits,
        )?;
        hits = more;
        start = end;
    }
    Ok(hits)
}

/// Collects all roots, where there is a global aggregation.
fn collect_globals(
    words: &Words,
    pass: &mut Pass,
    shard: &Shard,
    search: &Search,
    growth: &mut Growth,
) -> Result<(), Stop>
    requires of { IsOf words.now pass.old }
    requires rest { pass.old.view.trial ≡ Trial.Rest }
    requires made { IsSearchFor shard.now search.now }
    requires grown { HasGrown shard.now search.now (length (matched_roots search.now shard.now.rows)) growth.old }
    requires held { HoldsTask shard.now search.now (task_overhead + growth.old.bytes) pass.old.view }

    ensures grown { OnOk result (HasGrown shard.now search.now (row_count search.now shard.now.rows) growth.new) }
    ensures held { OnOk result (HoldsTask shard.now search.now (task_overhead + growth.new.bytes) pass.new.view) }
    ensures paid { OnOk result (PaysOn words.now.limits (amounts search.now shard.now.rows)
        (length (matched_roots search.now shard.now.rows)) (row_count search.now shard.now.rows)
        pass.old.view pass.new.view) }
    ensures stopped { IfErr result (StopsFrom words.now.limits (amounts search.now shard.now.rows)
        (length (matched_roots search.now shard.now.rows)) pass.old.view pass.new.view) }
    ensures of { IsOf words.now pass.new }
    ensures trial { pass.new.view.trial ≡ Trial.Rest }
    ensures cap { pass.new.view.cap ≡ pass.old.view.cap }
{
    if !has_global(&search.aggs) {
        return Ok(());
    }
    let count = shard.roots();
    let mut rows = Vec::new(growth.alloc);
    let mut start = 0;
    while start < count {
        let end = start.saturating_add(BLOCK).min(count);
        collect_global_block(words, pass, shard, search, growth, &mut rows, start, end)?;
        start = end;
    }
    Ok(())
}

/// Finishes the trees of all roots, and holds what the answer costs in their place.
fn finish(
    words: &Words,
    pass: &mut Pass,
    shard: &Shard,
    search: &Search,
    growth: Growth,
    hits: u64,
) -> Result<Partial, Stop>
    requires of { IsOf words.now pass.old }
    requires rest { pass.old.view.trial ≡ Trial.Rest }
    requires made { IsSearchFor shard.now search.now }
    requires hits { hits ≡ length (matched_roots search.now shard.now.rows) }
    requires grown { HasGrown shard.now search.now (row_count search.now shard.now.rows) growth }
    requires held { HoldsTask shard.now search.now (task_overhead + growth.bytes) pass.old.view }

    ensures answer { IfOk result (λ p. p ≡ shard_answer search.now shard.now.rows) }
    ensures paid { OnOk result ((v : View) →
        HasPaid words.now.limits v pass.old.view (take (row_count search.now shard.now.rows + 1) (amounts search.now shard.now.rows)) →
        HasPaid words.now.limits v pass.new.view (amounts search.now shard.now.rows)) }
    ensures stopped { IfErr result (StopsFrom words.now.limits (amounts search.now shard.now.rows)
        (row_count search.now shard.now.rows) pass.old.view pass.new.view) }
    ensures of { IsOf words.now pass.new }
    ensures trial { pass.new.view.trial ≡ Trial.Rest }
    ensures cap { pass.new.view.cap ≡ pass.old.view.cap }
{
    let held = TASK_BYTES + growth.bytes;
    let Ok(nodes) = growth.finish(shard, search) else {
        give_up(words, pass, held);
        return Err(Stop::Memory);
    };
    let answer = Partial { hits, nodes };
    match settle(words, pass, held, cost(&answer)) {
        Ok(()) => Ok(answer),
        Err(tripped) => Err(Stop::Refused(tripped)),
    }
}

/// Collects all roots of a task that has charged its empty trees, and finishes it.
pub(crate) fn collect_and_finish(
    words: &Words,
    pass: &mut Pass,
    shard: &Shard,
    search: &Search,
    matched: &Bits,
    growth: Growth,
) -> Result<Partial, Stop>
    requires of { IsOf words.now pass.old }
    requires rest { pass.old.view.trial ≡ Trial.Rest }
    requires made { IsSearchFor shard.now search.now }
    requires matched { matched.now ≡ map (matches shard.now.rows search.now.query) (roots shard.now.rows) }
    requires grown { HasGrown shard.now search.now 0 growth }
    requires held { HoldsTask shard.now search.now (task_overhead + growth.bytes) pass.old.view }

    ensures answer { IfOk result (λ p. p ≡ shard_answer search.now shard.now.rows) }
    ensures paid { OnOk result ((v : View) →
        HasPaid words.now.limits v pass.old.view (take 1 (amounts search.now shard.now.rows)) →
        HasPaid words.now.limits v pass.new.view (amounts search.now shard.now.rows)) }
    ensures stopped { IfErr result (StopsFrom words.now.limits (amounts search.now shard.now.rows) 0
        pass.old.view pass.new.view) }
    ensures of { IsOf words.now pass.new }
    ensures trial { pass.new.view.trial ≡ Trial.Rest }
    ensures cap { pass.new.view.cap ≡ pass.old.view.cap }
{
    let mut growth = growth;
    let hits = collect_matched(words, pass, shard, search, matched, &mut growth)?;
    collect_globals(words, pass, shard, search, &mut growth)?;
    let answer = finish(words, pass, shard, search, growth, hits)?;
    Ok(answer)
}
