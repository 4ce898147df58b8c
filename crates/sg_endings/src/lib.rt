//! How commands end: a status, and what was written.
//!
//! `specs/Ends.antt` says what is known of a sink where a command ends: it has got the whole of an output with its status, or it
//! failed and has got the front of one. `specs/Texts.antt` has the last lines that several commands share, and
//! `specs/Stops.antt` which status goes with which line.
#![tactic(auto)]

mod finishing;
mod stop;

pub use finishing::{WRITE_FAULT, finish, put_last};
pub use stop::Stop;
