//! The values of options, as words of a command line say them.
//!
//! A number is decimal, without a sign or a leading zero, and within a range; a place is the path of a file or a folder, or an
//! address. `specs/Values.antt` says which words these are. A key is `sg_base::is_key`.
#![tactic(auto)]

mod number;
mod place;

pub use number::number_in;
pub use place::is_place;
