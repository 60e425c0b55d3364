// The lines of a text record: how each line is read, and how it is written.
//
// This is an inner crate: its functions are called by the crate above it alone. `lines` reads one line in one step, and
// gives the first byte that is not of the form. `setting` writes one line into bytes that are lent.

#![tactic(auto)]

pub mod lines;
pub mod setting;
