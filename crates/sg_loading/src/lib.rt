//! The server from its keeper's rows.
//!
//! [`load`] reads the rows of the kinds 1 to 9 by key, a page at a time, and takes each into the server that the rows
//! before it stand for (`specs/Loading.antt`). The first row that may not be kept after those before it is named by its
//! key. Rows that a server wrote before version 2 are read too. `specs/Pages.antt` has what the pages say of a keeper.
#![tactic(auto)]

mod fault;
mod loading;
mod pages;
mod parts;
mod rows;

pub use fault::LoadFault;
pub use loading::load;
pub use parts::Parts;
