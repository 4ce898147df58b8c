//! An opening finds no fault on a disk that stands for contents, and reads what they are.
//!
//! There is no code here. The lemmas speak of the bytes alone: of the header, of each slot with its map, and of both slots.
//! `specs/Shelved.antt` says how the files of contents stand on a shelf.
#![tactic(auto)]
