//! Laws of searches that are answered side by side. Each function has laws as its contract, and does nothing.
ghost use Rattle.std.specs.Prelude.{ℕ, List, Option};
ghost use Rattle.agg_model.specs.declared.aggregation.Search.{Search};
ghost use Rattle.agg_model.specs.declared.breaker.Tripped.{Tripped};
ghost use Rattle.agg_model.specs.declared.outcome.Answered.{Answered};
ghost use Rattle.agg_model.specs.declared.settings.Settings.{Settings};
ghost use Rattle.agg_spec.specs.Outcome.{Request as AnyRequest};
ghost use Rattle.breaker_words.specs.Passes.{PassModel, WordsModel};
ghost use Rattle.breaker_words.specs.declared.view.View.{View};
ghost use Rattle.fitting_laws.specs.Indexes.{index_of};
ghost use Rattle.shard_pool.specs.declared.search_end.SearchEnd.{SearchEnd};
ghost use Rattle.shard_columns.specs.declared.index.Index.{Index as ShardIndex};
ghost use Rattle.wave_bodies.specs.declared.asked.Asked.{Asked};
ghost use Rattle.search_wave.specs.Ran.{HasAnswered};
ghost use Rattle.search_wave.specs.Waves.{IsWave};

/// Searches whose bodies were charged, whose tasks have run and that were answered are answered as a wave may be: each refusal that they
/// tell of was seen above its limit and within the ceiling of the wave, what was answered had room, and the totals rose as is known of
/// such answers.
pub fn answered_searches_are_a_wave()
    ensures { (settings : Settings) (index : ShardIndex) (words : WordsModel) (requests : List AnyRequest) (refusals : List (Option Tripped))
        (asked : List Asked) (searches : List Search) (ceilings : List ℕ) (ends : List SearchEnd) (answers : List Answered)
        (old charged : View) (opened closed : PassModel) (answered : View) →
        HasAnswered settings index words requests refusals asked searches ceilings ends answers old charged opened closed answered →
        IsWave settings (index_of index) requests old answered answers }
{}
