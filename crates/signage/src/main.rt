//! signage: a digital signage server and a crash-safe offline player.
//!
//! `main` makes the real source, sink, keeper and door and calls `top`, which reads the words of the command line and does
//! the one command that they name. What each command does is defined in `specs/`: the words (`Words.antt`),
//! each command (`Top.antt`), `preview` (`Preview.antt`), its lines (`Lines.antt`) and the texts
//! (`Texts.antt`). How a command ends is defined in `sg_endings`, `report` in
//! `sg_report_command`, `edit` in `sg_edit_command`, and `serve` in `sg_serve_command`.
#![tactic(auto)]

use sg_keeper_sqlite::SqliteKeeper;
use sg_outside::{StdSink, StdSource, TcpDoor};
use sg_words::{Places, places};
use std::env;
use std::io::ErrorKind;
use std::process::ExitCode;
use std::rt::Env;
use stop::{Stop, finish};
use tops::{Outside, top};

mod command;
mod display;
#[cfg(test)]
mod faults;
mod input;
mod previews;
mod stop;
#[cfg(test)]
mod tests;
mod tops;
#[cfg(test)]
mod worked;

fn main(rt: HostRuntime) -> ExitCode {
    ExitCode::from(run(rt))
}

/// Reads the words and does their command. Words that aren't UTF-8 are in no line of the command table.
fn run(rt: HostRuntime) -> u8 {
    match words_of(&rt) {
        Ok(words) => match places(rt.alloc(), words.as_slice()) {
            Ok(places) => follow(rt, words.as_slice(), places),
            Err(_) => finish(&mut StdSink::new(rt.stdout()), Stop::Memory),
        },
        Err(stop) => finish(&mut StdSink::new(rt.stdout()), stop),
    }
}

/// Does the command of the words over the real objects, of which each is opened at its first call.
fn follow(rt: HostRuntime, words: &[String], places: Places) -> u8 {
    let alloc = rt.alloc();
    let source = StdSource::new(rt.stdin());
    let out = StdSink::new(rt.stdout());
    let mut outside = Outside {
        source,
        out,
        keeper: SqliteKeeper::new(rt, places.db),
        door: TcpDoor::new(rt, places.listen),
    };
    top(alloc, words, &mut outside)
}

/// The words of the command line, without the program's name.
fn words_of<R: Env + AllocGlobal>(rt: &R) -> Result<Vec<String>, Stop> {
    match env::args(rt) {
        Ok(args) => args.skip(1).collect(rt.alloc()).map_err(|_| Stop::Memory),
        Err(error) => match error.kind() {
            ErrorKind::OutOfMemory => Err(Stop::Memory),
            _ => Err(Stop::Usage),
        },
    }
}
