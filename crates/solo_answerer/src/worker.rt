//! One worker, who answers one search after another.
ghost use Rattle.std.specs.Prelude.{◌≡◌, []};
ghost use Rattle.fitting_laws.specs.Indexes.{index_of};
ghost use Rattle.agg_settings.specs.Ranges.{AreInRange};
ghost use Rattle.agg_spec.specs.Answers.{Recent};
ghost use Rattle.agg_spec.specs.Columns.{columns_charge};
ghost use Rattle.agg_spec.specs.Statistics.{AreTotals};
ghost use Rattle.script_answers.specs.Answering.{MayBe, Reopens};
ghost use Rattle.script_run.specs.Charged.{IsCharged};
ghost use Rattle.solo_answerer.specs.Worked.{IsForOne, IsIdle, WorkerAnswered};

use agg_model::limits::MAX_LINE;
use agg_model::{Answered, Bytes, List, Outcome, Settings, Totals};
use agg_search::{search_pages, search_solo};
use breaker_tree::{Reopened, close, reopen};
use breaker_words::{Pass, Words};
use script_answers::{Answerer, Reopening};
use script_run::Opens;
use shard_columns::Index;
use std::alloc::{AllocError, Global};
use std::thread::Threads;
use worker_gate::Gate;

/// One worker, with the index whose searches it answers, the breakers, and the settings in force.
#[derive(Drop)]
pub struct Worker {
    index: Index,
    words: Words,
    pass: Pass,
    settings: Settings,
    ghost idle: { IsIdle settings index words pass },
    ghost for_one: { IsForOne settings },
    ghost in_range: { AreInRange settings },
}

impl Answerer for Worker {
    ghost index = { λ w. index_of w.index };

    ghost columns = { λ w. columns_charge (index_of w.index) };

    ghost in_force = { λ w. w.settings };

    ghost answered = { λ w rounds. WorkerAnswered w.settings w.index w.pass.view rounds };

    fn settings(&self) -> Settings
        ensures { result ≡ self.now.settings }
    {
        self.settings
    }

    fn answer<R: Threads + Sync>(
        &mut self,
        _rt: &R,
        alloc: Global,
        bodies: &List<Bytes>,
        _gate: &dyn Gate,
    ) -> Result<List<Answered>, AllocError> {
        let body = &bodies.as_slice()[0];
        // No line of a script is longer.
        if body.len() > MAX_LINE {
            return Err(AllocError);
        }
        if self.settings.scan {
            return search_pages(
                alloc,
                &self.words,
                &mut self.pass,
                &self.index,
                body,
                &self.settings,
            );
        }
        let answered = search_solo(
            alloc,
            &self.words,
            &mut self.pass,
            &self.index,
            body,
            &self.settings,
        );
        // What the pass stands at is not told then.
        if let Outcome::Memory = &answered.outcome {
            return Err(AllocError);
        }
        let mut answers = List::new(alloc);
        answers.push(answered)?;
        Ok(answers)
    }

    fn reopen(self, alloc: Global, settings: Settings) -> (Self, Reopening)
        requires same_workers { settings.workers ≡ self.settings.workers }
        requires same_width { settings.width ≡ self.settings.width }
        requires same_scan { settings.scan ≡ self.settings.scan }
        requires in_range { AreInRange self.settings → AreInRange settings }
        ensures taken { Reopens (columns_charge (index_of self.index)) settings self.settings
            (WorkerAnswered self.settings self.index self.pass.view) result.1
            result.0.settings (WorkerAnswered result.0.settings result.0.index result.0.pass.view) }
        ensures same_index { index_of result.0.index ≡ index_of self.index }
        ensures same_columns { columns_charge (index_of result.0.index) ≡ columns_charge (index_of self.index) }
    {
        let Worker {
            index,
            words,
            pass,
            settings: old,
        } = self;
        match reopen(alloc, words, pass, settings.limits) {
            Reopened::Done { words, pass } => (
                Worker {
                    index,
                    words,
                    pass,
                    settings,
                },
                Reopening::Taken,
            ),
            Reopened::Refused {
                tripped,
                words,
                pass,
            } => (
                Worker {
                    index,
                    words,
                    pass,
                    settings: old,
                },
                Reopening::TooHeavy(tripped),
            ),
            Reopened::Memory { words, pass } => (
                Worker {
                    index,
                    words,
                    pass,
                    settings: old,
                },
                Reopening::Memory,
            ),
        }
    }

    fn close(self) -> Totals
        ensures { (recent : Recent) →
            MayBe self.settings (WorkerAnswered self.settings self.index self.pass.view) recent →
            AreTotals recent.settings (index_of self.index) (columns_charge (index_of self.index)) recent.rounds result }
    {
        let Worker {
            index: _index,
            words,
            pass,
            settings: _settings,
        } = self;
        close(words, pass)
    }
}

impl Opens for Worker {
    ghost takes = { λ settings. IsForOne settings };

    fn open(index: Index, words: Words, pass: Pass, settings: Settings) -> Self
        requires charged { IsCharged settings index words pass }
        requires in_range { AreInRange settings }
        requires takes { IsForOne settings }
        ensures index { index_of result.index ≡ index_of index }
        ensures columns { columns_charge (index_of result.index) ≡ columns_charge (index_of index) }
        ensures in_force { result.settings ≡ settings }
        ensures answered { WorkerAnswered result.settings result.index result.pass.view [] }
    {
        Worker {
            index,
            words,
            pass,
            settings,
        }
    }
}
