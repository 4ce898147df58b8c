//! From words to the places of the real objects.

ghost use Rattle.std.specs.Prelude.{◌≡◌, IfOk};
ghost use Rattle.sg_words.specs.Options.{texts};
ghost use Rattle.sg_words.specs.Places.{places_in, places_of, texts_of};
ghost use Rattle.sg_words.specs.Table.{said};

use crate::command::Command;
use crate::place::Places;
use crate::table::command_of;
use std::alloc::{AllocError, Global};

/// The places that the words name, without the program's name. Words that aren't in the command table name none.
pub fn places(alloc: Global, words: &[String]) -> Result<Places, AllocError>
    ensures { IfOk result (λ p. texts_of p ≡ places_in (texts words.now)) }
{
    match command_of(alloc, words) {
        Ok(Some(command)) => places_of(alloc, &command),
        Ok(None) => made(alloc, "", "", "", "", ""),
        Err(refused) => Err(refused),
    }
}

// The places that a command's options name.
fn places_of(alloc: Global, command: &Command<'_>) -> Result<Places, AllocError>
    ensures { IfOk result (λ p. texts_of p ≡ places_of (said command.now)) }
{
    match command {
        Command::Format { store, server, .. } => made(alloc, store, "", server, "", ""),
        Command::Play {
            store,
            server,
            panel,
            ..
        } => made(alloc, store, "", server, "", panel.unwrap_or("")),
        Command::Serve { db, listen, .. } => made(alloc, "", db, "", listen, ""),
        Command::Edit { db } | Command::Report { db, .. } => made(alloc, "", db, "", "", ""),
        Command::Rehearse | Command::Made(_) => made(alloc, "", "", "", "", ""),
    }
}

// Places of these texts.
fn made(
    alloc: Global,
    store: &str,
    db: &str,
    server: &str,
    listen: &str,
    panel: &str,
) -> Result<Places, AllocError>
    ensures { IfOk result (λ p. texts_of p ≡ record {
      store = store.now;
      db = db.now;
      server = server.now;
      listen = listen.now;
      panel = panel.now;
    }) }
{
    Ok(Places {
        store: String::from_str(alloc, store)?,
        db: String::from_str(alloc, db)?,
        server: String::from_str(alloc, server)?,
        listen: String::from_str(alloc, listen)?,
        panel: String::from_str(alloc, panel)?,
    })
}
