//! Settings lines.
ghost use Rattle.std.specs.Prelude.{◌≡◌, ◌≤◌, Some, Err, IfOk, true};
ghost use Rattle.serde_json.specs.View.{view};
ghost use Rattle.agg_base.specs.Outside.{Rose};
ghost use Rattle.agg_reading.specs.SettingsLines.{is_settings_line};
ghost use Rattle.agg_settings.specs.Changes.{changed};
ghost use Rattle.agg_settings.specs.Ranges.{AreInRange};
ghost use Rattle.agg_spec.specs.Answers.{Recent, after_line, changed_by};
ghost use Rattle.agg_spec.specs.Written.{settings_text};
ghost use Rattle.script_answers.specs.Answering.{MayBe, fresh_with};
ghost use Rattle.script_answers.specs.Outputs.{so_far};
ghost use Rattle.script_answers.specs.Waves.{PutsChange};

use crate::answerer::{Answerer, Reopening};
use crate::stop::Stop;
use crate::writing::write_line;
use agg_base::Sink;
use agg_listen::{Audience, Listener};
use agg_model::{List, Settings, Text};
use agg_response::{exception, settings_line};
use agg_settings::{ChangeFault, change};
use serde_json::Value;
use std::alloc::{AllocError, Global};

/// Brings the settings of a settings line into force where they may be, and gives the text that answers the line.
fn apply_change<A: Answerer>(
    alloc: Global,
    answerer: A,
    words: &Settings,
    line: &Value,
) -> Result<(A, Text), AllocError>
    requires line { is_settings_line (view line.now) ≡ true }
    requires in_range { AreInRange words.now }
    ensures text { IfOk result (λ r. r.1 ≡ settings_text (changed_by changed words.now (A.index answerer) (A.columns answerer)
        (fresh_with (A.in_force answerer)) (view line.now))) }
    ensures recent { IfOk result (λ r. (recent : Recent) → MayBe (A.in_force answerer) (A.answered answerer) recent →
        MayBe (A.in_force r.0) (A.answered r.0)
        (after_line changed words.now (A.index answerer) (A.columns answerer) (Some (view line.now)) recent)) }
    ensures width { IfOk result (λ r. (A.in_force r.0).width ≡ (A.in_force answerer).width) }
    ensures same_index { IfOk result (λ r. A.index r.0 ≡ A.index answerer) }
    ensures same_columns { IfOk result (λ r. A.columns r.0 ≡ A.columns answerer) }
{
    let settings = match change(alloc, &answerer.settings(), words, line) {
        Ok(settings) => settings,
        Err(ChangeFault::Refused { key }) => {
            return Ok((answerer, settings_line(alloc, Some(&key))?));
        }
        Err(ChangeFault::Memory) => return Err(AllocError),
    };
    let (next, reopening) = answerer.reopen(alloc, settings);
    match reopening {
        Reopening::Taken => Ok((next, settings_line(alloc, None)?)),
        Reopening::TooHeavy(tripped) => {
            let failures = List::new(alloc);
            Ok((next, exception(alloc, &tripped, "columns", 429, &failures)?))
        }
        Reopening::Memory => Err(AllocError),
    }
}

/// Brings the settings of a settings line into force where they may be, and writes the line that answers it. `words` are the
/// settings of the program's words.
pub(crate) fn change_settings<K: Sink, L: Listener, A: Answerer>(
    alloc: Global,
    sink: &mut K,
    audience: &mut Audience<L>,
    answerer: A,
    words: &Settings,
    line: &Value,
) -> Result<A, Stop>
    requires line { is_settings_line (view line.now) ≡ true }
    requires in_range { AreInRange words.now }
    ensures puts { PutsChange words.now (A.index answerer) (A.columns answerer) (fresh_with (A.in_force answerer)) (view line.now)
        (so_far (K.written sink.old) audience.old) (so_far (K.written sink.new) audience.new) result }
    ensures recent { IfOk result (λ next. (recent : Recent) → MayBe (A.in_force answerer) (A.answered answerer) recent →
        MayBe (A.in_force next) (A.answered next)
        (after_line changed words.now (A.index answerer) (A.columns answerer) (Some (view line.now)) recent)) }
    ensures width { IfOk result (λ next. (A.in_force next).width ≡ (A.in_force answerer).width) }
    ensures same_index { IfOk result (λ next. A.index next ≡ A.index answerer) }
    ensures same_columns { IfOk result (λ next. A.columns next ≡ A.columns answerer) }
    ensures fault { result ≡ Err Stop.Write → Rose (K.faults sink.old) (K.faults sink.new) }
    ensures never_falls { K.faults sink.old ≤ K.faults sink.new }
{
    let (next, answer) = apply_change(alloc, answerer, words, line)?;
    write_line(sink, audience, &answer)?;
    Ok(next)
}
