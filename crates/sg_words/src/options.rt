//! The options of a command, read by `clap`.

ghost use Rattle.std.specs.Prelude.{◌≡◌, true, false, IfOk, map, option_map};
ghost use Rattle.std.specs.List.{list_all, list_any};
ghost use Rattle.clap.specs.Words.{app_of, first_of, found_of, is_simple_and_free, rows_of, rule_of, with_rule};
ghost use Rattle.sg_words.specs.Options.{app_with, bare_app, found_in, given, is_apart, is_option, option_rule, texts, with_each};

use clap::error::ErrorKind;
use clap::{Arg, ArgAction, ArgMatches, Command};
use std::alloc::{AllocError, Global};

/// What the words give to the options of a command, which have these names; `None` if they aren't options and their values.
pub(crate) fn given<'a>(
    alloc: Global,
    required: &[&'a str],
    optional: &[&'a str],
    words: &'a [String],
) -> Result<Option<ArgMatches<'a>>, AllocError>
    requires { is_simple_and_free (app_with (map (λ n. n.now) required.now) (map (λ n. n.now) optional.now)) ≡ true }
    ensures { IfOk result (λ o. option_map (λ m. rows_of (found_of m)) o
        ≡ given (map (λ n. n.now) required.entry.now) (map (λ n. n.now) optional.entry.now)
        (texts words.entry.now)) }
{
    if !are_apart(required, optional, words) {
        return Ok(None);
    }
    let command = command_with(alloc, required, optional)?;
    found(command, words)
}

// What clap finds, where it has no fault.
fn found<'a>(
    command: Command<'a>,
    words: &'a [String],
) -> Result<Option<ArgMatches<'a>>, AllocError>
    requires { is_simple_and_free (app_of command) ≡ true }
    ensures { IfOk result (λ o. option_map (λ m. rows_of (found_of m)) o
        ≡ found_in (app_of command.entry) (texts words.entry.now)) }
{
    match command.try_get_matches_from(words) {
        Ok(matches) => Ok(Some(matches)),
        Err(error) => match error.kind() {
            ErrorKind::OutOfMemory => Err(AllocError),
            _ => Ok(None),
        },
    }
}

// ---- the command

// A command with these options.
fn command_with<'a>(
    alloc: Global,
    required: &[&'a str],
    optional: &[&'a str],
) -> Result<Command<'a>, AllocError>
    ensures { IfOk result (λ c. app_of c
        ≡ app_with (map (λ n. n.now) required.entry.now) (map (λ n. n.now) optional.entry.now)) }
{
    let command = with_each(alloc, bare(alloc), required, true)?;
    Ok(with_each(alloc, command, optional, false)?)
}

// A command without options, and without a help of its own, that reads all words.
fn bare<'a>(alloc: Global) -> Command<'a>
    ensures { app_of result ≡ bare_app }
{
    Command::new(alloc, "signage")
        .no_binary_name(true)
        .disable_help_flag(true)
        .disable_version_flag(true)
}

// The command with an option more for each name.
fn with_each<'a>(
    alloc: Global,
    mut command: Command<'a>,
    names: &[&'a str],
    required: bool,
) -> Result<Command<'a>, AllocError>
    ensures { IfOk result (λ c. app_of c
        ≡ with_each required (map (λ n. n.now) names.entry.now) (app_of command.entry)) }
{
    for name in names {
        command = with(alloc, command, name, required)?;
    }
    Ok(command)
}

// The command with one option more, which takes a value.
fn with<'a>(
    alloc: Global,
    command: Command<'a>,
    name: &'a str,
    required: bool,
) -> Result<Command<'a>, AllocError>
    ensures { IfOk result (λ c. app_of c ≡ with_rule (app_of command.entry) (option_rule name.entry.now required)) }
{
    command.arg(option(alloc, name, required))
}

fn option<'a>(alloc: Global, name: &'a str, required: bool) -> Arg<'a>
    ensures rule { rule_of result ≡ option_rule name.entry.now required }
    ensures local { result.global ≡ false }
{
    Arg::new(alloc, name)
        .long(name)
        .required(required)
        .action(ArgAction::Set)
}

// ---- words with a dash

// Whether each word that begins with a dash is, whole, one of the options.
fn are_apart(required: &[&str], optional: &[&str], words: &[String]) -> bool
    ensures { result
        ≡ list_all (is_apart (map (λ n. n.now) required.now) (map (λ n. n.now) optional.now)) (texts words.now) }
{
    words
        .iter()
        .all(|word| is_apart(required, optional, word.as_str()))
}

fn is_apart(required: &[&str], optional: &[&str], word: &str) -> bool
    ensures { result
        ≡ is_apart (map (λ n. n.now) required.now) (map (λ n. n.now) optional.now) word.now }
{
    let first = word.as_bytes().first().copied().unwrap_or(0);
    first != b'-' || is_among(required, word) || is_among(optional, word)
}

fn is_among(names: &[&str], word: &str) -> bool
    ensures { result ≡ list_any (is_option word.now) (map (λ n. n.now) names.now) }
{
    names.iter().any(|name| is_option(word, name))
}

// Whether a word is this option: two dashes, and then its name.
fn is_option(word: &str, name: &str) -> bool
    ensures { result ≡ is_option word.now name.now }
{
    match word.as_bytes().strip_prefix(b"--") {
        Some(rest) => rest == name.as_bytes(),
        None => false,
    }
}

// ---- values

/// The value of an option.
#[tactic(auto, using(crate::proofs::OptionLemmas::value_rows))]
pub(crate) fn value_of<'a>(matches: &ArgMatches<'a>, name: &str) -> Option<&'a str>
    ensures { option_map (λ s. s.now) result ≡ first_of name.now (rows_of (found_of matches.now)) }
{
    matches.get_str(name)
}
