//! What a store keeps in memory, and what it knows of its disk.
//!
//! There is no code here. `specs/State.antt` has what a store keeps as one record, and what is so of it whatever disk it is;
//! `specs/Ready.antt` ties it to a disk and to the contents for which the disk stands (`IsReady`). The lemmas say what opening,
//! reading, staging and switching make of it.
#![tactic(auto)]
