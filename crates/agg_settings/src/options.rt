//! What each option says, or its refusal with key and value.

ghost use Rattle.std.specs.Prelude.{◌≡◌, ◌≤◌, ◌++◌, IfOk, codes, map, not, find, option_map, string_bytes, true, unwrap_or, []};
ghost use Rattle.clap.specs.Words.{all_of, first_of, first_value, found_of, rows_of};
ghost use Rattle.agg_settings.specs.Usages.{Gives, SeenAs};
ghost use Rattle.agg_settings.specs.Entries.{is_entry};
ghost use Rattle.agg_settings.specs.Options.{entries_at, generate_at, is_given, number_at, scan_at};

use crate::entries::{entry_parts, is_entry};
use crate::fault::{SettingsFault, refused};
use crate::generate::generate_of;
use crate::numbers::number_in;
use agg_model::Generate;
use clap::ArgMatches;
use std::alloc::{AllocError, Global};

/// The first value of an option.
fn value_of<'m>(matches: &ArgMatches<'m>, name: &str) -> Option<&'m str>
    ensures { option_map (λ s. s.now) result ≡ first_of name.now (rows_of (found_of matches.now)) }
{
    matches.get_str(name)
}

/// The name of an option as it is written, `--name`.
fn dashed(alloc: Global, name: &str) -> Result<String, AllocError>
    ensures { IfOk result (λ s. string_bytes s ≡ codes "--" ++ name.now) }
{
    let mut dashed = String::from_str(alloc, "--")?;
    dashed.push_str(name)?;
    Ok(dashed)
}

/// The number of `--name`, from `least` to `most`, or its default.
#[tactic(auto, unfolding(crate::specs::Options::number_at))]
pub(crate) fn number_at(
    alloc: Global,
    matches: &ArgMatches<'_>,
    name: &str,
    least: u32,
    most: u32,
    default: u32,
) -> Result<u32, SettingsFault>
    requires low { least ≤ default }
    requires high { default ≤ most }
    ensures value { Gives result
        (number_at name.now least most default (rows_of (found_of matches.now))) }
    ensures least { IfOk result (λ n. least ≤ n) }
    ensures most { IfOk result (λ n. n ≤ most) }
{
    let Some(value) = value_of(matches, name) else {
        return Ok(default);
    };
    match number_in(least as u64, most as u64, value.as_bytes()) {
        Some(number) => Ok(number as u32),
        None => refused(alloc, dashed(alloc, name)?.as_str(), value),
    }
}

/// The first of the entries that is none.
fn first_refused<'e>(entries: &[&'e str]) -> Option<&'e str>
    ensures { option_map (λ s. s.now) result
        ≡ find (λ entry. not (is_entry entry)) (map (λ s. s.now) entries.now) }
{
    for entry in entries {
        if !is_entry(entry) {
            return Some(entry);
        }
    }
    None
}

/// The values of `-E`, where one is given.
fn given_entries<'m, 'w>(matches: &'m ArgMatches<'w>) -> Option<&'m [&'w str]>
    ensures { option_map (λ s. map (λ e. e.now) s.now) result
        ≡ all_of (codes "entry") (rows_of (found_of matches.now)) }
{
    matches.get_raw("entry")
}

/// The values of `-E` in order.
fn entries_of<'w>(alloc: Global, matches: &ArgMatches<'w>) -> Result<Vec<&'w str>, AllocError>
    ensures { IfOk result (λ v. map (λ s. s.now) v.items
        ≡ unwrap_or (all_of (codes "entry") (rows_of (found_of matches.now))) []) }
{
    match given_entries(matches) {
        Some(given) => Vec::from_slice(alloc, given),
        None => Ok(Vec::new(alloc)),
    }
}

/// The entries of `-E` in order, or the refusal of the first that is none.
#[tactic(auto, unfolding(crate::specs::Options::entries_at))]
pub(crate) fn entries_at<'w>(
    alloc: Global,
    matches: &ArgMatches<'w>,
) -> Result<Vec<&'w str>, SettingsFault>
    ensures { SeenAs (λ v. map (λ s. s.now) v.items) result
        (entries_at (rows_of (found_of matches.now))) }
{
    let entries = entries_of(alloc, matches)?;
    match first_refused(entries.as_slice()) {
        Some(entry) => {
            let (key, value) = entry_parts(entry);
            refused(alloc, key, value)
        }
        None => Ok(entries),
    }
}

/// Whether a flag is given.
#[tactic(auto, unfolding(crate::specs::Options::is_given))]
fn is_given(matches: &ArgMatches<'_>, name: &str) -> bool
    ensures { result ≡ is_given name.now (rows_of (found_of matches.now)) }
{
    match value_of(matches, name) {
        Some(value) => value == "true",
        None => false,
    }
}

/// Whether `--scan` is given, which is refused where `width` searches run at a time and not one.
#[tactic(auto, unfolding(crate::specs::Options::scan_at))]
pub(crate) fn scan_at(
    alloc: Global,
    matches: &ArgMatches<'_>,
    width: u32,
) -> Result<bool, SettingsFault>
    ensures value { Gives result (scan_at width (rows_of (found_of matches.now))) }
    ensures alone { IfOk result (λ scan. scan ≡ true → width ≡ 1) }
{
    let scan = is_given(matches, "scan");
    if scan && width != 1 {
        refused(alloc, "--scan", "")
    } else {
        Ok(scan)
    }
}

/// The script that `--generate` asks for.
#[tactic(auto, unfolding(crate::specs::Options::generate_at))]
pub(crate) fn generate_at(
    alloc: Global,
    matches: &ArgMatches<'_>,
) -> Result<Option<Generate>, SettingsFault>
    ensures { Gives result (generate_at (rows_of (found_of matches.now))) }
{
    let Some(value) = value_of(matches, "generate") else {
        return Ok(None);
    };
    match generate_of(value) {
        Some(generate) => Ok(Some(generate)),
        None => refused(alloc, "--generate", value),
    }
}
