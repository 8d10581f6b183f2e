//! Laws of the settings that words give. Each is the contract of a function that does nothing.
ghost use Rattle.std.specs.Prelude.{◌≡◌, ℕ, List, Ok, false};
ghost use Rattle.agg_model.specs.declared.settings.Settings.{Settings};
ghost use Rattle.agg_settings.specs.Settings.{settings_of};

/// Where several workers and searches at a time are not in the grammar, the settings have one of each.
pub fn one_worker_and_one_search()
    ensures workers { (words : List (List ℕ)) (s : Settings) → settings_of false words ≡ Ok s → s.workers ≡ 1 }
    ensures width { (words : List (List ℕ)) (s : Settings) → settings_of false words ≡ Ok s → s.width ≡ 1 }
{}
