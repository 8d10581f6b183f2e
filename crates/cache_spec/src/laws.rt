//! Laws of searches of which answers are kept. Each function has a law as its contract, and does nothing.
ghost use Rattle.std.specs.Prelude.{◌≡◌, ◌⊎◌, [], ℕ, List};
ghost use Rattle.agg_model.specs.declared.breaker.Tripped.{Tripped};
ghost use Rattle.agg_model.specs.declared.outcome.Outcome.TheVariants as ended;
ghost use Rattle.agg_model.specs.declared.settings.Settings.{Settings};
ghost use Rattle.agg_spec.specs.Charges.{Run};
ghost use Rattle.agg_spec.specs.Index.{Index};
ghost use Rattle.agg_spec.specs.Outcome.{outcome, Request};
ghost use Rattle.agg_spec.specs.Solo.{solo_run};
ghost use Rattle.cache_spec.specs.Cache.{cached_answer, cached_run};
ghost use Rattle.cache_spec.specs.declared.shard_search.ShardSearch.{ShardSearch};

/// Where nothing can be kept, a search runs as that of one worker alone.
pub fn a_search_of_which_nothing_is_kept_runs_alone()
    ensures { (settings : Settings) (index : Index) (start : Run) (request : Request) →
        cached_run 0 settings index start [] request
        ≡ record { going = solo_run settings index start request; entries = [] } }
{}

/// Whatever is kept, an answer that is no refusal by a breaker is that of the whole reduction for the same failures.
pub fn kept_answers_tell_the_whole_reduction()
    ensures { (capacity : ℕ) (settings : Settings) (index : Index) (start : Run) (entries : List ShardSearch) (request : Request) →
        ((cached_answer capacity settings index start entries request).outcome
        ≡ outcome index settings.max_buckets request (cached_answer capacity settings index start entries request).failures)
        ⊎ ((t : Tripped) × ((cached_answer capacity settings index start entries request).outcome ≡ ended.Tripped t)) }
{}
