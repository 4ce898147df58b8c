//! Commands by the values of their options.

ghost use Rattle.std.specs.Prelude.{◌≡◌, IfOk, option_map};
ghost use Rattle.sg_words.specs.Table.{edit_of, format_of, play_of, rehearse_of, report_of, said, serve_of};

use crate::command::Command;
use sg_base::Moment;
use sg_values::number_in;
use std::alloc::{AllocError, Global};

/// `format` of this store.
pub(crate) fn format_of<'a>(
    store: Option<&'a str>,
    server: Option<&'a str>,
    display: Option<u32>,
    key: Option<&'a str>,
    room: Option<u64>,
) -> Option<Command<'a>>
    ensures { option_map said result ≡ format_of (option_map (λ s. s.now) store.entry)
        (option_map (λ s. s.now) server.entry) display (option_map (λ s. s.now) key.entry) room }
{
    let store = store?;
    let server = server?;
    let display = display?;
    let key = key?;
    let room = room?;
    Some(Command::Format {
        store,
        server,
        display,
        key,
        room,
    })
}

/// `play` of this store.
pub(crate) fn play_of<'a>(
    store: Option<&'a str>,
    server: Option<&'a str>,
    key: Option<&'a str>,
    every: Option<u32>,
    panel: Option<Option<&'a str>>,
) -> Option<Command<'a>>
    ensures { option_map said result ≡ play_of (option_map (λ s. s.now) store.entry)
        (option_map (λ s. s.now) server.entry) (option_map (λ s. s.now) key.entry) every
        (option_map (λ o. option_map (λ s. s.now) o) panel.entry) }
{
    let store = store?;
    let server = server?;
    let key = key?;
    let every = every?;
    let panel = panel?;
    Some(Command::Play {
        store,
        server,
        key,
        every,
        panel,
    })
}

/// `serve` of these rows at an address, with the operator's key, for so many connections.
pub(crate) fn serve_of<'a>(
    db: Option<&'a str>,
    listen: Option<&'a str>,
    key: Option<&'a str>,
    connections: Option<u32>,
) -> Option<Command<'a>>
    ensures { option_map said result ≡ serve_of (option_map (λ s. s.now) db.entry)
        (option_map (λ s. s.now) listen.entry) (option_map (λ s. s.now) key.entry) connections }
{
    let db = db?;
    let listen = listen?;
    let key = key?;
    let connections = connections?;
    Some(Command::Serve {
        db,
        listen,
        key,
        connections,
    })
}

/// `edit` of these rows.
pub(crate) fn edit_of(db: Option<&str>) -> Option<Command<'_>>
    ensures { option_map said result ≡ edit_of (option_map (λ s. s.now) db.entry) }
{
    match db {
        Some(db) => Some(Command::Edit { db }),
        None => None,
    }
}

/// `report` of these rows from one moment to another.
pub(crate) fn report_of(
    db: Option<&str>,
    from: Option<Moment>,
    to: Option<Moment>,
) -> Option<Command<'_>>
    ensures { option_map said result ≡ report_of (option_map (λ s. s.now) db.entry) from to }
{
    let db = db?;
    let from = from?;
    let to = to?;
    if from <= to {
        Some(Command::Report { db, from, to })
    } else {
        None
    }
}

/// `rehearse` of a script, or of the run that is made of a number.
pub(crate) fn rehearse_of<'a>(
    alloc: Global,
    made: Option<&str>,
) -> Result<Option<Command<'a>>, AllocError>
    ensures { IfOk result (λ o. option_map said o ≡ rehearse_of (option_map (λ s. s.now) made.entry)) }
{
    match made {
        Some(word) => match number_in(alloc, word, 1, 1_000_000)? {
            Some(number) => Ok(Some(Command::Made(number as u32))),
            None => Ok(None),
        },
        None => Ok(Some(Command::Rehearse)),
    }
}
