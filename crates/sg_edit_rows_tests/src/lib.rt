//! The tests of sg_edit_rows: rows of every kind and form that are read, written and refused. It has nothing else. The tests stand apart from the crate that they test, which is proved
//! without them.
#![tactic(auto)]

#[cfg(test)]
mod tests;
