//! The pages of a search by one worker ('Composite aggregation', pagination).
ghost use Rattle.std.specs.Prelude.{◌≡◌, ◌≤◌, IfOk, length};
ghost use Rattle.agg_model.specs.declared.breaker.Which.{Which as AnyWhich};
ghost use Rattle.agg_model.specs.declared.breaker.Which.TheVariants as which;
ghost use Rattle.agg_model.specs.declared.limits.TheConstants.{MAX_BATCH, MAX_LINE};
ghost use Rattle.agg_spec.specs.Requests.{request_of};
ghost use Rattle.breaker_words.specs.Views.{hold_of};
ghost use Rattle.solo_charges.specs.Alone.{IsAlone};
ghost use Rattle.fitting_laws.specs.Indexes.{index_of};
ghost use Rattle.agg_search.specs.Paging.{AnswersPages};

use crate::shard_tasks::Shards;
use crate::solo::answer_page;
use agg_model::{Answered, Bytes, List, Outcome, Settings};
use breaker_words::{Pass, Words};
use shard_columns::Index;
use std::alloc::{AllocError, Global};

/// Answers a search by one worker page by page, each with all the charges of `search_solo`, that of the body too. Where the
/// only aggregation at the top is a composite, a page follows each response whose composite has a bucket, and goes on after
/// the last one's key; any other search has one answer. The body is read once.
///
/// The pass is alone at the breakers, and holds nothing but the columns. Want of memory may end the search anywhere.
pub fn search_pages(
    alloc: Global,
    words: &Words,
    pass: &mut Pass,
    index: &Index,
    body: &Bytes,
    settings: &Settings,
) -> Result<List<Answered>, AllocError>
    requires alone { IsAlone words.now pass.old }
    requires limits { words.now.limits ≡ settings.now.limits }
    requires some { 1 ≤ settings.now.batch }
    requires few { settings.now.batch ≤ MAX_BATCH }
    requires line { length body.now ≤ MAX_LINE }
    requires request { hold_of pass.old.view which.Request ≡ 0 }
    requires inflight { hold_of pass.old.view which.Inflight ≡ 0 }
    ensures alone { IsAlone words.now pass.new }
    ensures holds { (x : AnyWhich) → hold_of pass.new.view x ≡ hold_of pass.old.view x }
    ensures answers { IfOk result (AnswersPages settings.now (index_of index.now)
        (request_of (index_of index.now) body.now) pass.old.view pass.new.view) }
{
    let mut shards = Shards { index };
    let mut answers = Vec::new(alloc);
    let mut search = None;
    loop {
        let page = answer_page(alloc, words, pass, &mut shards, body, search, settings);
        // What the pass stands at is not told then.
        if let Outcome::Memory = &page.answered.outcome {
            return Err(AllocError);
        }
        answers.push(page.answered)?;
        match page.next {
            Some(next) => search = Some(next),
            None => return Ok(List::from_vec(answers)),
        }
    }
}
