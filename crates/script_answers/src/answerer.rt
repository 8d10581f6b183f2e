//! What is asked of one who answers the searches of a script.
ghost use Rattle.std.specs.Prelude.{◌≡◌, ◌≤◌, ℕ, List as Items, length, map, IfOk};
ghost use Rattle.std.specs.Thread.{IsSync};
ghost use Rattle.agg_model.specs.declared.settings.Settings.{Settings};
ghost use Rattle.agg_spec.specs.Answers.{Recent};
ghost use Rattle.agg_spec.specs.Index.{Index};
ghost use Rattle.agg_spec.specs.Requests.{request_of};
ghost use Rattle.agg_spec.specs.Rounds.{Round};
ghost use Rattle.agg_spec.specs.Statistics.{AreTotals};
ghost use Rattle.agg_settings.specs.Ranges.{AreInRange};
ghost use Rattle.script_answers.specs.Answering.{AnswersRound, MayBe, Reopens};

use agg_model::{Answered, Bytes, List, Settings, Totals, Tripped};
use std::alloc::{AllocError, Global};
use std::thread::Threads;
use worker_gate::Gate;

/// What new settings come to.
#[derive(Clone, Copy, Debug, PartialEq, Eq)]
pub enum Reopening {
    /// They are in force, and all totals start anew.
    Taken,
    /// The columns are beyond a new limit. The old settings stay in force.
    TooHeavy(Tripped),
    /// Memory ran out. The old settings stay in force.
    Memory,
}

/// Who answers the searches of a script: it holds the index, the breakers and the settings in force.
pub trait Answerer: Drop {
    /// The index, as the definitions of answers see it.
    ghost index: { Self → Index };

    /// The charge of its columns.
    ghost columns: { Self → ℕ };

    /// The settings in force.
    ghost in_force: { Self → Settings };

    /// Whether these may be the rounds that were answered since the settings are in force.
    ghost answered: { Self → Items Round → Type 0 };

    /// The settings in force.
    fn settings(&self) -> Settings
        ensures { result ≡ in_force self.now };

    /// Answers searches, as many as a wave has or fewer: one answer for each in their order, or with `scan` the pages of each.
    /// After want of memory it answers no more. It may start threads, all of which have ended when it returns. Workers that
    /// share tasks pass the gate.
    fn answer<R: Threads + Sync>(
        &mut self,
        rt: &R,
        alloc: Global,
        bodies: &List<Bytes>,
        gate: &dyn Gate,
    ) -> Result<List<Answered>, AllocError>
        requires shared { IsSync R.row }
        requires some { 1 ≤ length bodies.now }
        requires few { length bodies.now ≤ (in_force self.old).width }
        ensures rounds { IfOk result (λ answers. (recent : Recent) →
            MayBe (in_force self.old) (answered self.old) recent →
            AnswersRound (index self.old) (columns self.old) recent (map (request_of (index self.old)) bodies.now)
            (answered self.new) answers) }
        ensures same_settings { in_force self.new ≡ in_force self.old }
        ensures same_index { index self.new ≡ index self.old }
        ensures same_columns { columns self.new ≡ columns self.old };

    /// Brings new settings into force, which have as many workers and searches at a time as those in force, unless the columns
    /// are beyond one of their limits.
    fn reopen(self, alloc: Global, settings: Settings) -> (Self, Reopening)
        requires same_workers { settings.workers ≡ (in_force self).workers }
        requires same_width { settings.width ≡ (in_force self).width }
        requires same_scan { settings.scan ≡ (in_force self).scan }
        requires in_range { AreInRange (in_force self) → AreInRange settings }
        ensures taken { Reopens (columns self) settings (in_force self) (answered self) result.1
            (in_force result.0) (answered result.0) }
        ensures same_index { index result.0 ≡ index self }
        ensures same_columns { columns result.0 ≡ columns self };

    /// The statistics of the breakers, as the last that is done.
    fn close(self) -> Totals
        ensures { (recent : Recent) → MayBe (in_force self) (answered self) recent →
            AreTotals recent.settings (index self) (columns self) recent.rounds result };
}
