//! The settings of a run, from the words after the program's name.

ghost use Rattle.std.specs.Prelude.{◌≡◌, ◌≤◌, IfOk, IfErr, Ok, map};
ghost use Rattle.clap.specs.Words.{found_of, rows_of};
ghost use Rattle.agg_settings.specs.Usages.{Fails, Gives};
ghost use Rattle.agg_settings.specs.Ranges.{AreInRange};
ghost use Rattle.agg_settings.specs.Settings.{most_at_once, settings_at, settings_of};

use crate::command::{matches, slices};
use crate::entries::{heap_in, limits_in, max_buckets_in};
use crate::fault::SettingsFault;
use crate::options::{entries_at, generate_at, number_at, scan_at};
use agg_model::limits::{DEFAULT_BATCH, MAX_AT_ONCE, MAX_BATCH, MIN_BATCH};
use agg_model::{Settings, Text};
use clap::ArgMatches;
use std::alloc::Global;

/// The most workers, and the most searches at a time.
fn most_at_once(several: bool) -> u32
    ensures value { result ≡ most_at_once several }
    ensures low { 1 ≤ result }
    ensures high { result ≤ MAX_AT_ONCE }
{
    if several { MAX_AT_ONCE } else { 1 }
}

/// The settings that the options give, in the order of their refusals.
#[tactic(auto, unfolding(crate::specs::Settings::settings_at))]
fn settings_at(
    alloc: Global,
    matches: &ArgMatches<'_>,
    most: u32,
) -> Result<Settings, SettingsFault>
    requires low { 1 ≤ most }
    requires high { most ≤ MAX_AT_ONCE }
    ensures value { Gives result (settings_at most (rows_of (found_of matches.now))) }
    ensures in_range { IfOk result AreInRange }
{
    let workers = number_at(alloc, matches, "workers", 1, most, 1)?;
    let batch = number_at(
        alloc,
        matches,
        "batched-reduce-size",
        MIN_BATCH,
        MAX_BATCH,
        DEFAULT_BATCH,
    )?;
    let width = number_at(alloc, matches, "concurrent-searches", 1, most, 1)?;
    let entries = entries_at(alloc, matches)?;
    let scan = scan_at(alloc, matches, width)?;
    let generate = generate_at(alloc, matches)?;
    Ok(Settings {
        workers,
        batch,
        width,
        limits: limits_in(entries.as_slice()),
        heap: heap_in(entries.as_slice()),
        max_buckets: max_buckets_in(entries.as_slice()),
        scan,
        generate,
    })
}

/// The settings that the words after the program's name give. With `several`, up to 64 workers and up to 64 searches at
/// a time are in the grammar; without it one alone, for a program that does not answer more.
///
/// Words outside the grammar are refused with the first key that fails and its value: the name of an option, as
/// `--workers`, or the key of an entry of `-E`. Both are empty where the command line itself is refused, as for an
/// unknown word. The options are looked at in this order: `--workers`, `--batched-reduce-size`,
/// `--concurrent-searches`, each `-E`, `--scan`, `--generate`. Want of memory may come in the place of any of them.
#[tactic(auto, unfolding(crate::specs::Settings::settings_of))]
pub fn settings_of(alloc: Global, words: &[Text], several: bool) -> Result<Settings, SettingsFault>
    ensures settings { IfOk result (λ settings. settings_of several words.now ≡ Ok settings) }
    ensures usage { IfErr result (λ fault. Fails fault (settings_of several words.now)) }
    ensures in_range { IfOk result AreInRange }
{
    let words = slices(alloc, words)?;
    let matches = matches(alloc, words.as_slice())?;
    settings_at(alloc, &matches, most_at_once(several))
}
