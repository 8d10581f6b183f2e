//! One worker or many, by the settings.
ghost use Rattle.std.specs.Prelude.{◌≡◌, ⊤};
ghost use Rattle.agg_spec.specs.Columns.{columns_charge};
ghost use Rattle.agg_spec.specs.Statistics.{is_solo};
ghost use Rattle.fitting_laws.specs.Indexes.{index_of};
ghost use Rattle.solo_answerer.specs.Worked.{WorkerAnswered};
ghost use Rattle.wave_answerer.specs.Worked.{CrewAnswered};

use crate::crew::Crew;
use agg_model::{Answered, Bytes, List, Settings, Totals};
use breaker_words::{Pass, Words};
use script_answers::{Answerer, Reopening};
use script_run::Opens;
use shard_columns::Index;
use solo_answerer::Worker;
use std::alloc::{AllocError, Global};
use std::thread::Threads;
use worker_gate::Gate;

/// Who answers the searches of a script, whatever the settings are: one worker, where it is to run one search at a time, and else
/// many.
#[derive(Drop)]
pub enum Team {
    /// One worker that runs one search at a time.
    One(Worker),
    /// More workers, or more searches at a time.
    Many(Crew),
}

/// Whether there is one worker that runs one search at a time.
fn is_for_one(settings: &Settings) -> bool
    ensures { result ≡ is_solo settings.now }
{
    settings.workers == 1 && settings.width == 1
}

impl Answerer for Team {
    ghost use Rattle.wave_answerer.specs.declared.team.Team.TheVariants.{One, Many};

    ghost index = { elim [ One w ↦ index_of w.index | Many c ↦ index_of c.index ] };

    ghost columns = { elim [ One w ↦ columns_charge (index_of w.index) | Many c ↦ columns_charge (index_of c.index) ] };

    ghost in_force = { elim [ One w ↦ w.settings | Many c ↦ c.settings ] };

    ghost answered = { elim [ One w ↦ WorkerAnswered w.settings w.index w.pass.view | Many c ↦ CrewAnswered c.index c.pass.view ] };

    fn settings(&self) -> Settings {
        match self {
            Team::One(worker) => worker.settings(),
            Team::Many(crew) => crew.settings(),
        }
    }

    fn answer<R: Threads + Sync>(
        &mut self,
        rt: &R,
        alloc: Global,
        bodies: &List<Bytes>,
        gate: &dyn Gate,
    ) -> Result<List<Answered>, AllocError> {
        match self {
            Team::One(worker) => worker.answer(rt, alloc, bodies, gate),
            Team::Many(crew) => crew.answer(rt, alloc, bodies, gate),
        }
    }

    fn reopen(self, alloc: Global, settings: Settings) -> (Self, Reopening) {
        match self {
            Team::One(worker) => {
                let (worker, reopening) = worker.reopen(alloc, settings);
                (Team::One(worker), reopening)
            }
            Team::Many(crew) => {
                let (crew, reopening) = crew.reopen(alloc, settings);
                (Team::Many(crew), reopening)
            }
        }
    }

    fn close(self) -> Totals {
        match self {
            Team::One(worker) => worker.close(),
            Team::Many(crew) => crew.close(),
        }
    }
}

impl Opens for Team {
    ghost takes = { λ settings. ⊤ };

    fn open(index: Index, words: Words, pass: Pass, settings: Settings) -> Self {
        if is_for_one(&settings) {
            return Team::One(Worker::open(index, words, pass, settings));
        }
        Team::Many(Crew::open(index, words, pass, settings))
    }
}
