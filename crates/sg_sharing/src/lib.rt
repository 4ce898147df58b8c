//! A store and a journal on one disk.
//!
//! There is no code here. `specs/Sharing.antt` says of a store and a journal that they are ready on one disk, with the same contents
//! (`AreReady`). The lemmas say that they stay so after each call of either one: an append, a switch, bytes that are staged, a
//! call that only reads, an acknowledgement; and that they are so after both were opened, the store first.
#![tactic(auto)]
