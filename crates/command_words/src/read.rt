// Reading of words.
ghost use Rattle.std.specs.Prelude.{◌≡◌, [], IfErr, IfOk, MatchOption, map};
ghost use Rattle.clap.specs.Words.{fault_of, kind_of, subcommand_of, subcommand_rows_of};
ghost use Rattle.command_words.specs.Asked.{AskFor, HasNoMode, IsModeOf, IsToldOf, IsUsageOf};
ghost use Rattle.command_words.specs.CommandLine.{lnsd_line};

use crate::asked::Given;
use crate::line::{format, import_command, lnsd, retire_command};
use crate::mode::{Mode, Usage};
use clap::error::ErrorKind;
use clap::{ArgMatches, Error};
use std::alloc::{AllocError, Global};

/// What these words, without the program's name, ask for. `Words` has clap's text if they are
/// wrong, `Help` if they ask for help or for the version.
pub fn words<'a>(alloc: Global, words: &'a [&'a str]) -> Result<Mode<'a>, Usage>
    ensures mode { IfOk result (AskFor (map (λ w. w.now) words.entry.now)) }
    ensures usage { IfErr result (IsUsageOf (map (λ w. w.now) words.entry.now)) }
{
    let Ok(mut command) = lnsd(alloc) else {
        return Err(Usage::Memory);
    };
    let matches = match command.try_get_matches_from_mut(words) {
        Ok(matches) => matches,
        Err(error) => return Err(usage_of(alloc, &error)),
    };
    match mode_of(alloc, &matches) {
        Ok(Some(mode)) => Ok(mode),
        Ok(None) => Err(wrong_value(alloc, &matches)),
        Err(AllocError) => Err(Usage::Memory),
    }
}

// The text that is printed if no matches were found.
fn usage_of(alloc: Global, error: &Error) -> Usage
    ensures { IsToldOf (kind_of error.now) result }
{
    if error.kind() == ErrorKind::OutOfMemory {
        return Usage::Memory;
    }
    match error.to_string(alloc) {
        Err(_) => Usage::Memory,
        Ok(text) if error.use_stderr() => Usage::Words(text),
        Ok(text) => Usage::Help(text),
    }
}

// The text that is printed for a value that clap doesn't check itself.
fn wrong_value(alloc: Global, matches: &ArgMatches<'_>) -> Usage
    ensures { IsToldOf ErrorKind.ValueValidation result }
{
    let error = match matches.subcommand() {
        Some(("import", import)) => import_error(alloc, import),
        Some(("retire", _)) => retire_error(alloc),
        _ => format_error(alloc),
    };
    match error {
        Ok(error) => usage_of(alloc, &error),
        Err(AllocError) => Usage::Memory,
    }
}

const WRONG_NET_ID: &str = "invalid value for '--netid <HEX>': it has 6 upper-case hexadecimal \
    digits, from 000000 to 00003F";

fn format_error(alloc: Global) -> Result<Error, AllocError>
    ensures { IfOk result (λ error. kind_of error ≡ ErrorKind.ValueValidation) }
{
    let mut command = format(alloc)?.bin_name("lnsd format")?;
    command.error(ErrorKind::ValueValidation, WRONG_NET_ID)
}

fn import_error(alloc: Global, import: &ArgMatches<'_>) -> Result<Error, AllocError>
    ensures { IfOk result (λ error. kind_of error ≡ ErrorKind.ValueValidation) }
{
    let both = import.get_str("netid").is_some() && import.get_str("slots").is_some();
    let message = if both {
        WRONG_NET_ID
    } else {
        "a new store needs both '--netid <HEX>' and '--slots <N>'"
    };
    let mut command = import_command(alloc)?.bin_name("lnsd import")?;
    command.error(ErrorKind::ValueValidation, message)
}

fn retire_error(alloc: Global) -> Result<Error, AllocError>
    ensures { IfOk result (λ error. kind_of error ≡ ErrorKind.ValueValidation) }
{
    let message = "invalid value for '<DEVEUI>...': a DevEUI has 16 upper-case hexadecimal digits";
    let mut command = retire_command(alloc)?.bin_name("lnsd retire")?;
    command.error(ErrorKind::ValueValidation, message)
}

fn mode_of<'a>(alloc: Global, matches: &ArgMatches<'a>) -> Result<Option<Mode<'a>>, AllocError>
    ensures { IfOk result (λ mode. MatchOption mode (HasNoMode (subcommand_rows_of matches.now))
        (IsModeOf (subcommand_rows_of matches.now))) }
{
    let Some((name, matches)) = matches.subcommand() else {
        return Ok(None);
    };
    let Some(file) = matches.get_str("file") else {
        return Ok(None);
    };
    Given { file, matches }.mode(alloc, name)
}
