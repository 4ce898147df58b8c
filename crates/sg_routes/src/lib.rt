//! The paths of the server: what a message asks for, by its method and its target.
//!
//! A path is one of seven routes, each with a pattern of segments (`specs/Paths.antt`). `specs/Asked.antt` says what a method
//! and a target ask for, in the order in which faults are looked for. The module `read_back` has the law that what is asked
//! for, written as a path, is read as just that.
#![tactic(auto)]

mod asked;
mod read_back;
mod route;
mod segments;

pub use asked::{Asked, RouteFault, ask};
pub use read_back::paths_read_back;
pub use route::{Route, route_of};
