//! The command words of the program: what the words of the command line ask for.
//!
//! `specs/Table.antt` has the command table: the command that the words say, if they say one. `clap` reads the options after
//! a command's name, after a test that each word which begins with `-` is, whole, the name of one of them after two dashes
//! (`specs/Options.antt`). The words of `preview` are read by the program itself.
#![tactic(auto)]

mod command;
mod commands;
mod options;
mod place;
mod placing;
mod table;
mod values;

pub use command::Command;
pub use place::Places;
pub use placing::places;
pub use table::command_of;
