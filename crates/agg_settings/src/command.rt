//! The command line as one simple command of `clap`, and what was given for its options.

ghost use Rattle.std.specs.Prelude.{◌≡◌, ◌↔◌, IfOk, IfErr, IsTrue, true, false, map};
ghost use Rattle.clap.specs.Words.{app_of, found_of, kind_of, rows_of, rule_of};
ghost use Rattle.agg_settings.specs.Usages.{RefusesWords};
ghost use Rattle.agg_settings.specs.Words.{bare_command, command, entry_option, is_command, option_named, rows_in, scan_flag};

use crate::fault::{SettingsFault, refused};
use agg_model::Text;
use clap::error::ErrorKind;
use clap::{Arg, ArgAction, ArgMatches, Command, Error};
use std::alloc::{AllocError, Global};

/// The option `--name`, which takes one value.
fn option_named<'a>(alloc: Global, name: &'a str) -> Arg<'a>
    ensures rule { rule_of result ≡ option_named name.entry.now }
    ensures local { result.global ≡ false }
{
    Arg::new(alloc, name).long(name)
}

/// The option `-E`, which may be given again.
fn entry_option<'a>(alloc: Global) -> Arg<'a>
    ensures rule { rule_of result ≡ entry_option }
    ensures local { result.global ≡ false }
{
    Arg::new(alloc, "entry")
        .short('E')
        .action(ArgAction::Append)
}

/// The flag `--scan`.
fn scan_flag<'a>(alloc: Global) -> Arg<'a>
    ensures rule { rule_of result ≡ scan_flag }
    ensures local { result.global ≡ false }
{
    option_named(alloc, "scan").action(ArgAction::SetTrue)
}

/// The command without options, help and version. The first word is no program's name.
fn bare_command<'a>(alloc: Global) -> Command<'a>
    ensures { app_of result ≡ bare_command }
{
    Command::new(alloc, "aggs")
        .no_binary_name(true)
        .disable_help_flag(true)
        .disable_version_flag(true)
}

/// The command with its options.
fn command<'a>(alloc: Global) -> Result<Command<'a>, AllocError>
    ensures { IfOk result (λ made. app_of made ≡ command) }
{
    bare_command(alloc)
        .arg(option_named(alloc, "workers"))?
        .arg(option_named(alloc, "batched-reduce-size"))?
        .arg(option_named(alloc, "concurrent-searches"))?
        .arg(entry_option(alloc))?
        .arg(scan_flag(alloc))?
        .arg(option_named(alloc, "generate"))
}

/// The words as string slices.
pub(crate) fn slices(alloc: Global, words: &[Text]) -> Result<Vec<&str>, AllocError>
    ensures { IfOk result (λ v. map (λ s. s.now) v.items ≡ words.now) }
{
    let mut slices = Vec::new(alloc);
    for word in words {
        slices.push(word.as_str())?;
    }
    Ok(slices)
}

/// Whether a parse failed for want of memory.
fn is_memory(error: &Error) -> bool
    ensures { IsTrue result ↔ (kind_of error.now ≡ ErrorKind.OutOfMemory) }
{
    matches!(error.kind(), ErrorKind::OutOfMemory)
}

/// What was given for the options; words that the command does not take are refused with empty texts.
pub(crate) fn matches<'w>(
    alloc: Global,
    words: &'w [&'w str],
) -> Result<ArgMatches<'w>, SettingsFault>
    ensures taken { IfOk result (λ _. is_command (map (λ s. s.now) words.entry.now) ≡ true) }
    ensures rows { IfOk result (λ m.
        rows_of (found_of m) ≡ rows_in (map (λ s. s.now) words.entry.now)) }
    ensures refused { IfErr result (RefusesWords (is_command (map (λ s. s.now) words.entry.now))) }
{
    match command(alloc)?.try_get_matches_from(words) {
        Ok(found) => Ok(found),
        Err(error) if is_memory(&error) => Err(SettingsFault::Memory),
        Err(_) => refused(alloc, "", ""),
    }
}
