//! The command table: from words to a command.

ghost use Rattle.std.specs.Prelude.{◌≡◌, IfOk, option_map};
ghost use Rattle.clap.specs.Words.{found_of, rows_of};
ghost use Rattle.sg_words.specs.Options.{texts};
ghost use Rattle.sg_words.specs.Table.{edit_in, edit_words, format_in, format_words, play_in, play_words, rehearse_words, report_in, report_words, said, said_by, said_in, serve_in, serve_words};

use crate::command::Command;
use crate::commands::{edit_of, format_of, play_of, rehearse_of, report_of, serve_of};
use crate::options::{given, value_of};
use crate::values::{key, moment, number, number_or, place, place_if, room};
use clap::ArgMatches;
use std::alloc::{AllocError, Global};

/// The command that the words say, without the program's name; `None` if they are in no line of the table but that of
/// `preview`. The texts of the command are those of the words.
pub fn command_of<'a>(alloc: Global, words: &'a [String]) -> Result<Option<Command<'a>>, AllocError>
    ensures { IfOk result (λ o. option_map said o ≡ said_in (texts words.entry.now)) }
{
    match words {
        [] => Ok(None),
        [name, others @ ..] => command_by(alloc, name.as_str(), others),
    }
}

// The command of this name, with the words after it.
fn command_by<'a>(
    alloc: Global,
    name: &str,
    words: &'a [String],
) -> Result<Option<Command<'a>>, AllocError>
    ensures { IfOk result (λ o. option_map said o ≡ said_by name.now (texts words.entry.now)) }
{
    if name == "format" {
        format_words(alloc, words)
    } else if name == "play" {
        play_words(alloc, words)
    } else if name == "serve" {
        serve_words(alloc, words)
    } else if name == "edit" {
        edit_words(alloc, words)
    } else if name == "report" {
        report_words(alloc, words)
    } else if name == "rehearse" {
        rehearse_words(alloc, words)
    } else {
        Ok(None)
    }
}

// ---- `format`

#[tactic(auto, unfolding(crate::specs::Table::format_words))]
fn format_words<'a>(alloc: Global, words: &'a [String]) -> Result<Option<Command<'a>>, AllocError>
    ensures { IfOk result (λ o. option_map said o ≡ format_words (texts words.entry.now)) }
{
    match given(
        alloc,
        &["store", "server", "display", "key", "data"],
        &[],
        words,
    )? {
        Some(matches) => format_in(alloc, &matches),
        None => Ok(None),
    }
}

#[tactic(auto, unfolding(crate::specs::Table::format_in))]
fn format_in<'a>(alloc: Global, matches: &ArgMatches<'a>) -> Result<Option<Command<'a>>, AllocError>
    ensures { IfOk result (λ o. option_map said o ≡ format_in (rows_of (found_of matches.now))) }
{
    let store = place(value_of(matches, "store"));
    let server = place(value_of(matches, "server"));
    let display = number(alloc, 1, u32::MAX, value_of(matches, "display"))?;
    let key = key(value_of(matches, "key"));
    let room = room(alloc, value_of(matches, "data"))?;
    Ok(format_of(store, server, display, key, room))
}

// ---- `play`

#[tactic(auto, unfolding(crate::specs::Table::play_words))]
fn play_words<'a>(alloc: Global, words: &'a [String]) -> Result<Option<Command<'a>>, AllocError>
    ensures { IfOk result (λ o. option_map said o ≡ play_words (texts words.entry.now)) }
{
    match given(
        alloc,
        &["store", "server", "key"],
        &["every", "panel"],
        words,
    )? {
        Some(matches) => play_in(alloc, &matches),
        None => Ok(None),
    }
}

#[tactic(auto, unfolding(crate::specs::Table::play_in))]
fn play_in<'a>(alloc: Global, matches: &ArgMatches<'a>) -> Result<Option<Command<'a>>, AllocError>
    ensures { IfOk result (λ o. option_map said o ≡ play_in (rows_of (found_of matches.now))) }
{
    let store = place(value_of(matches, "store"));
    let server = place(value_of(matches, "server"));
    let key = key(value_of(matches, "key"));
    let every = number_or(alloc, 0, 1_000_000, 1, value_of(matches, "every"))?;
    let panel = place_if(value_of(matches, "panel"));
    Ok(play_of(store, server, key, every, panel))
}

// ---- `serve`

#[tactic(auto, unfolding(crate::specs::Table::serve_words))]
fn serve_words<'a>(alloc: Global, words: &'a [String]) -> Result<Option<Command<'a>>, AllocError>
    ensures { IfOk result (λ o. option_map said o ≡ serve_words (texts words.entry.now)) }
{
    match given(alloc, &["db", "listen", "key"], &["connections"], words)? {
        Some(matches) => serve_in(alloc, &matches),
        None => Ok(None),
    }
}

#[tactic(auto, unfolding(crate::specs::Table::serve_in))]
fn serve_in<'a>(alloc: Global, matches: &ArgMatches<'a>) -> Result<Option<Command<'a>>, AllocError>
    ensures { IfOk result (λ o. option_map said o ≡ serve_in (rows_of (found_of matches.now))) }
{
    let db = place(value_of(matches, "db"));
    let listen = place(value_of(matches, "listen"));
    let key = key(value_of(matches, "key"));
    let connections = number_or(
        alloc,
        1,
        1_000_000,
        1_000_000,
        value_of(matches, "connections"),
    )?;
    Ok(serve_of(db, listen, key, connections))
}

// ---- `edit`

#[tactic(auto, unfolding(crate::specs::Table::edit_words))]
fn edit_words<'a>(alloc: Global, words: &'a [String]) -> Result<Option<Command<'a>>, AllocError>
    ensures { IfOk result (λ o. option_map said o ≡ edit_words (texts words.entry.now)) }
{
    match given(alloc, &["db"], &[], words)? {
        Some(matches) => Ok(edit_in(&matches)),
        None => Ok(None),
    }
}

#[tactic(auto, unfolding(crate::specs::Table::edit_in))]
fn edit_in<'a>(matches: &ArgMatches<'a>) -> Option<Command<'a>>
    ensures { option_map said result ≡ edit_in (rows_of (found_of matches.now)) }
{
    let db = place(value_of(matches, "db"));
    edit_of(db)
}

// ---- `report`

#[tactic(auto, unfolding(crate::specs::Table::report_words))]
fn report_words<'a>(alloc: Global, words: &'a [String]) -> Result<Option<Command<'a>>, AllocError>
    ensures { IfOk result (λ o. option_map said o ≡ report_words (texts words.entry.now)) }
{
    match given(alloc, &["db", "from", "to"], &[], words)? {
        Some(matches) => report_in(alloc, &matches),
        None => Ok(None),
    }
}

#[tactic(auto, unfolding(crate::specs::Table::report_in))]
fn report_in<'a>(alloc: Global, matches: &ArgMatches<'a>) -> Result<Option<Command<'a>>, AllocError>
    ensures { IfOk result (λ o. option_map said o ≡ report_in (rows_of (found_of matches.now))) }
{
    let db = place(value_of(matches, "db"));
    let from = moment(alloc, value_of(matches, "from"))?;
    let to = moment(alloc, value_of(matches, "to"))?;
    Ok(report_of(db, from, to))
}

// ---- `rehearse`

#[tactic(auto, unfolding(crate::specs::Table::rehearse_words, crate::specs::Table::rehearse_in))]
fn rehearse_words<'a>(alloc: Global, words: &'a [String]) -> Result<Option<Command<'a>>, AllocError>
    ensures { IfOk result (λ o. option_map said o ≡ rehearse_words (texts words.entry.now)) }
{
    match given(alloc, &[], &["made"], words)? {
        Some(matches) => rehearse_of(alloc, value_of(&matches, "made")),
        None => Ok(None),
    }
}
