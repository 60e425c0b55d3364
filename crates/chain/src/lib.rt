// Chains of calls on an opened book: whatever edits and settlings are made in whatever order, refused ones included, the book
// stands settled exactly when settle was the last call accepted, and is then cheapest.
//
// `calls` has the calls that may change an opened book or its costs, and `replaying` makes a list of them.

#![tactic(auto)]

pub mod calls;
pub mod replaying;
