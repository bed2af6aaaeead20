//! Reading the words.

ghost use Rattle.std.specs.Prelude.{◌≡◌, ◌≢◌, [], true, IfOk, IfErr, OnErr, OnOk, map, option_map, unwrap_or, codes};
ghost use Rattle.clap.specs.Words.{IsAmong, all_of, first_of, one_of, found_of, kind_of, rows_of, fault_of, subcommand_of, subcommand_rows_of, has_subcommand};
ghost use Rattle.html_job.specs.Line.{line};
ghost use Rattle.html_job.specs.Read.{HasBadValue, IsBadForeign, IsBadNumber, IsBadProfile, IsFlag, IsJobOf, IsNumber, IsRefused, IsVersion, IsWords, Reads, foreign_text, profile_text};

use crate::jobs::{Command, Foreign, Job, JobFault};
use crate::line::line;
use clap::error::ErrorKind;
use clap::{ArgMatches, Error};
use html_page::Profile;
use std::alloc::{AllocError, Global};
use std::convert::AsStr;

const WRONG_PROFILE: &str =
    "error: invalid value for '--profile <PROFILE>'\n  [possible values: 1, 2]\n";

const WRONG_FOREIGN: &str =
    "error: invalid value for '--foreign <WHAT>'\n  [possible values: refuse, parse]\n";

/// The job that the words ask for. The first word is the program's name.
///
/// # Errors
///
/// `Words` where the words are refused, or ask for help, with the text to show; `Version` where they ask for the version, with that; `OutOfMemory` where
/// there is no memory to read them, or for that text.
pub fn job<'a, S: AsStr>(alloc: Global, words: &'a [S]) -> Result<Job<'a>, JobFault>
    ensures ok { IfOk result (λ j. IsJobOf j (map S.text words.entry.now)) }
    ensures taken { OnOk result (fault_of line (map S.text words.entry.now) ≡ []) }
    ensures refused { IfErr result (λ e. IsWords e → IsRefused (map S.text words.entry.now)) }
    ensures version { IfErr result (λ e. IsVersion e → IsAmong ErrorKind.DisplayVersion (fault_of line (map S.text words.entry.now))) }
{
    let matches = matched(alloc, words)?;
    let Some((name, rest)) = matches.subcommand() else {
        unreachable!()
    };
    let Some(command) = Command::named(name) else {
        unreachable!()
    };
    job_of(alloc, command, rest)
}

/// What clap makes of the words.
fn matched<'a, S: AsStr>(alloc: Global, words: &'a [S]) -> Result<ArgMatches<'a>, JobFault>
    ensures matches { IfOk result (λ m. subcommand_rows_of m ≡ subcommand_of line (map S.text words.entry.now)) }
    ensures met { IfOk result (λ m. has_subcommand m ≡ true) }
    ensures taken { OnOk result (fault_of line (map S.text words.entry.now) ≡ []) }
    ensures refused { IfErr result (λ e. IsWords e → fault_of line (map S.text words.entry.now) ≢ []) }
    ensures version { IfErr result (λ e. IsVersion e → IsAmong ErrorKind.DisplayVersion (fault_of line (map S.text words.entry.now))) }
{
    match line(alloc)?.try_get_matches_from(words) {
        Ok(matches) => Ok(matches),
        Err(error) => Err(fault(alloc, &error)),
    }
}

/// The job of a command with these matches.
fn job_of<'a>(
    alloc: Global,
    command: Command,
    matches: &ArgMatches<'a>,
) -> Result<Job<'a>, JobFault>
    ensures command { IfOk result (λ j. j.command ≡ command) }
    ensures reads { IfOk result (λ j. Reads j (rows_of (found_of matches.entry.now))) }
    ensures refused { IfErr result (λ e. IsWords e → HasBadValue (rows_of (found_of matches.entry.now))) }
    ensures version { IfErr result (λ e. IsVersion e → ⊥) }
{
    let profile = profile(alloc, matches)?;
    let foreign = foreign(alloc, matches)?;
    let max_nodes = number(alloc, matches, "max-nodes")?;
    let max_held = number(alloc, matches, "max-held")?;
    let max_input = number(alloc, matches, "max-input")?;
    let max_steps = number(alloc, matches, "max-steps")?;
    let inputs = files(alloc, matches, "INPUT")?;
    let files = files(alloc, matches, "FILE")?;
    Ok(Job {
        command,
        entities: text(matches, "entities"),
        fragment: text(matches, "fragment"),
        context_encoding: text(matches, "context-encoding"),
        foreign,
        max_nodes,
        max_held,
        max_input,
        max_steps,
        profile,
        lines: flag(matches, "lines"),
        verbose: flag(matches, "verbose"),
        inputs,
        files,
    })
}

/// The profile that the words name, `One` where they name none.
fn profile(alloc: Global, matches: &ArgMatches<'_>) -> Result<Profile, JobFault>
    ensures ok { IfOk result (λ p. profile_text p ≡ unwrap_or (first_of (codes "profile") (rows_of (found_of matches.now))) (codes "1")) }
    ensures refused { OnErr result (IsBadProfile (first_of (codes "profile") (rows_of (found_of matches.now)))) }
    ensures version { IfErr result (λ e. IsVersion e → ⊥) }
{
    match text(matches, "profile") {
        None => Ok(Profile::One),
        Some(text) if text == "1" => Ok(Profile::One),
        Some(text) if text == "2" => Ok(Profile::Two),
        Some(_) => Err(words_fault(alloc, WRONG_PROFILE)),
    }
}

/// What the words ask to be done with foreign content, `Refuse` where they do not say.
fn foreign(alloc: Global, matches: &ArgMatches<'_>) -> Result<Foreign, JobFault>
    ensures ok { IfOk result (λ f. foreign_text f ≡ unwrap_or (first_of (codes "foreign") (rows_of (found_of matches.now))) (codes "refuse")) }
    ensures refused { OnErr result (IsBadForeign (first_of (codes "foreign") (rows_of (found_of matches.now)))) }
    ensures version { IfErr result (λ e. IsVersion e → ⊥) }
{
    match text(matches, "foreign") {
        None => Ok(Foreign::Refuse),
        Some(text) if text == "refuse" => Ok(Foreign::Refuse),
        Some(text) if text == "parse" => Ok(Foreign::Parse),
        Some(_) => Err(words_fault(alloc, WRONG_FOREIGN)),
    }
}

/// The number that stands at an option.
fn number(alloc: Global, matches: &ArgMatches<'_>, name: &str) -> Result<Option<u64>, JobFault>
    ensures ok { IfOk result (λ n. IsNumber n (first_of name.now (rows_of (found_of matches.now)))) }
    ensures refused { OnErr result (IsBadNumber (first_of name.now (rows_of (found_of matches.now)))) }
    ensures version { IfErr result (λ e. IsVersion e → ⊥) }
{
    match text(matches, name) {
        None => Ok(None),
        Some(text) => match text.parse::<u64>() {
            Ok(number) => Ok(Some(number)),
            Err(_) => Err(wrong_number(alloc, name)),
        },
    }
}

/// The files that stand at an argument.
fn files<'a>(
    alloc: Global,
    matches: &ArgMatches<'a>,
    name: &str,
) -> Result<Vec<&'a str>, AllocError>
    ensures { IfOk result (λ v. map (λ s. s.now) v.items ≡ unwrap_or (all_of name.now (rows_of (found_of matches.entry.now))) []) }
{
    match matches.get_strs(name) {
        Some(files) => Vec::from_slice(alloc, files),
        None => Ok(Vec::new(alloc)),
    }
}

/// The text that stands at an argument.
fn text<'a>(matches: &ArgMatches<'a>, name: &str) -> Option<&'a str>
    ensures { option_map (λ s. s.now) result ≡ first_of name.now (rows_of (found_of matches.now)) }
{
    matches.get_str(name)
}

/// Whether a flag stands there.
fn flag(matches: &ArgMatches<'_>, name: &str) -> bool
    ensures { IsFlag result (one_of name.now (rows_of (found_of matches.now))) }
{
    matches.get_flag(name)
}

/// What an error of clap says.
fn fault(alloc: Global, error: &Error) -> JobFault
    ensures words { IsWords result → kind_of error.now ≢ ErrorKind.OutOfMemory }
    ensures version { IsVersion result → kind_of error.now ≡ ErrorKind.DisplayVersion }
{
    if matches!(error.kind(), ErrorKind::OutOfMemory) {
        return JobFault::OutOfMemory;
    }
    match (error.to_string(alloc), error.kind()) {
        (Ok(text), ErrorKind::DisplayVersion) => JobFault::Version(text),
        (Ok(text), _) => JobFault::Words(text),
        (Err(_), _) => JobFault::OutOfMemory,
    }
}

/// The fault of an option whose value is no number.
fn wrong_number(alloc: Global, name: &str) -> JobFault
    ensures { IsVersion result → ⊥ }
{
    match wrong_number_text(alloc, name) {
        Ok(text) => JobFault::Words(text),
        Err(_) => JobFault::OutOfMemory,
    }
}

fn wrong_number_text(alloc: Global, name: &str) -> Result<String, AllocError> {
    let mut text = String::new(alloc);
    write!(
        text,
        "error: invalid value for '--{name} <K>'\n  [a number from 0 to 18446744073709551615]\n"
    )?;
    Ok(text)
}

/// The fault of words that clap takes.
fn words_fault(alloc: Global, text: &str) -> JobFault
    ensures { IsVersion result → ⊥ }
{
    match String::from_str(alloc, text) {
        Ok(text) => JobFault::Words(text),
        Err(_) => JobFault::OutOfMemory,
    }
}
