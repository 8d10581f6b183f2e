//! Many workers, who answer the searches of a wave side by side.
ghost use Rattle.std.specs.Prelude.{◌≡◌, [], false, length, nat_le};
ghost use Rattle.std.specs.List.{list_all};
ghost use Rattle.fitting_laws.specs.Indexes.{index_of};
ghost use Rattle.agg_model.specs.declared.limits.TheConstants.{MAX_LINE};
ghost use Rattle.agg_settings.specs.Ranges.{AreInRange};
ghost use Rattle.agg_spec.specs.Answers.{Recent};
ghost use Rattle.agg_spec.specs.Columns.{columns_charge};
ghost use Rattle.agg_spec.specs.Statistics.{AreTotals, is_solo};
ghost use Rattle.script_answers.specs.Answering.{MayBe, Reopens};
ghost use Rattle.script_run.specs.Charged.{IsCharged};
ghost use Rattle.solo_answerer.specs.Worked.{IsIdle};
ghost use Rattle.wave_answerer.specs.Worked.{CrewAnswered};

use agg_model::limits::MAX_LINE;
use agg_model::{Answered, Bytes, List, Settings, Totals, Which};
use breaker_tree::{Reopened, close, reopen};
use breaker_words::{Pass, Words, look};
use script_answers::{Answerer, Reopening};
use script_run::Opens;
use search_wave::{search_pages, search_wave};
use shard_columns::Index;
use std::alloc::{AllocError, Global};
use std::thread::Threads;
use worker_gate::Gate;

/// Many workers, with the index whose searches they answer, the breakers, and the settings in force. Between two waves there is no
/// thread of theirs.
#[derive(Drop)]
pub struct Crew {
    index: Index,
    words: Words,
    pass: Pass,
    settings: Settings,
    ghost idle: { IsIdle settings index words pass },
    // Not one worker with one search at a time.
    ghost several: { is_solo settings ≡ false },
    ghost in_range: { AreInRange settings },
}

/// Whether no body is longer than a line of a script can be.
fn are_lines(bodies: &List<Bytes>) -> bool
    ensures { result ≡ list_all (λ body. nat_le (length body) MAX_LINE) bodies.now }
{
    bodies.as_slice().iter().all(|body| body.len() <= MAX_LINE)
}

impl Answerer for Crew {
    ghost index = { λ w. index_of w.index };

    ghost columns = { λ w. columns_charge (index_of w.index) };

    ghost in_force = { λ w. w.settings };

    ghost answered = { λ w rounds. CrewAnswered w.index w.pass.view rounds };

    fn settings(&self) -> Settings
        ensures { result ≡ self.now.settings }
    {
        self.settings
    }

    fn answer<R: Threads + Sync>(
        &mut self,
        rt: &R,
        alloc: Global,
        bodies: &List<Bytes>,
        gate: &dyn Gate,
    ) -> Result<List<Answered>, AllocError> {
        // No line of a script is longer.
        if !are_lines(bodies) {
            return Err(AllocError);
        }
        if self.settings.scan {
            return search_pages(
                rt,
                alloc,
                &self.words,
                &mut self.pass,
                &self.index,
                &bodies.as_slice()[0],
                &self.settings,
                &gate,
            );
        }
        search_wave(
            rt,
            alloc,
            &self.words,
            &mut self.pass,
            &self.index,
            bodies,
            &self.settings,
            &gate,
        )
    }

    fn reopen(self, alloc: Global, settings: Settings) -> (Self, Reopening)
        requires same_workers { settings.workers ≡ self.settings.workers }
        requires same_width { settings.width ≡ self.settings.width }
        requires same_scan { settings.scan ≡ self.settings.scan }
        requires in_range { AreInRange self.settings → AreInRange settings }
        ensures taken { Reopens (columns_charge (index_of self.index)) settings self.settings
            (CrewAnswered self.index self.pass.view) result.1
            result.0.settings (CrewAnswered result.0.index result.0.pass.view) }
        ensures same_index { index_of result.0.index ≡ index_of self.index }
        ensures same_columns { columns_charge (index_of result.0.index) ≡ columns_charge (index_of self.index) }
    {
        let Crew {
            index,
            words,
            pass,
            settings: old,
        } = self;
        match reopen(alloc, words, pass, settings.limits) {
            Reopened::Done { words, pass } => (
                Crew {
                    index,
                    words,
                    pass,
                    settings,
                },
                Reopening::Taken,
            ),
            Reopened::Refused {
                tripped,
                words,
                pass,
            } => (
                Crew {
                    index,
                    words,
                    pass,
                    settings: old,
                },
                Reopening::TooHeavy(tripped),
            ),
            Reopened::Memory { words, pass } => (
                Crew {
                    index,
                    words,
                    pass,
                    settings: old,
                },
                Reopening::Memory,
            ),
        }
    }

    fn close(self) -> Totals
        ensures { (recent : Recent) →
            MayBe self.settings (CrewAnswered self.index self.pass.view) recent →
            AreTotals recent.settings (index_of self.index) (columns_charge (index_of self.index)) recent.rounds result }
    {
        let Crew {
            index: _index,
            words,
            mut pass,
            settings: _settings,
        } = self;
        // A look tells that the parent was granted what the children were.
        let _held = look(&words, &mut pass, Which::Parent);
        close(words, pass)
    }
}

impl Opens for Crew {
    ghost takes = { λ settings. is_solo settings ≡ false };

    fn open(index: Index, words: Words, pass: Pass, settings: Settings) -> Self
        requires charged { IsCharged settings index words pass }
        requires in_range { AreInRange settings }
        requires takes { is_solo settings ≡ false }
        ensures index { index_of result.index ≡ index_of index }
        ensures columns { columns_charge (index_of result.index) ≡ columns_charge (index_of index) }
        ensures in_force { result.settings ≡ settings }
        ensures answered { CrewAnswered result.index result.pass.view [] }
    {
        Crew {
            index,
            words,
            pass,
            settings,
        }
    }
}
