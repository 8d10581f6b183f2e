//! Who answers, made of what was loaded.
ghost use Rattle.std.specs.Prelude.{◌≡◌, []};
ghost use Rattle.fitting_laws.specs.Indexes.{index_of};
ghost use Rattle.agg_model.specs.declared.settings.Settings.{Settings as AnySettings};
ghost use Rattle.agg_settings.specs.Ranges.{AreInRange};
ghost use Rattle.agg_spec.specs.Columns.{columns_charge};
ghost use Rattle.script_run.specs.Charged.{IsCharged};

use agg_model::Settings;
use breaker_words::{Pass, Words};
use script_answers::Answerer;
use shard_columns::Index;

/// Who can be made of an index whose columns are charged, and answers its searches.
pub trait Opens: Answerer {
    /// The settings with which it can answer.
    ghost takes: { AnySettings → Type 0 };

    /// One who has answered nothing yet, with these settings in force.
    fn open(index: Index, words: Words, pass: Pass, settings: Settings) -> Self
        requires charged { IsCharged settings index words pass }
        requires in_range { AreInRange settings }
        requires takes { takes settings }
        ensures index { Self.index result ≡ index_of index }
        ensures columns { Self.columns result ≡ columns_charge (index_of index) }
        ensures in_force { Self.in_force result ≡ settings }
        ensures answered { Self.answered result [] };
}
