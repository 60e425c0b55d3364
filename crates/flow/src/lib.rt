// Loads within the spans of the arcs that leave no surplus at any node, or a set of nodes that bars all such loads.
//
// An inner crate: its functions are called by the crates above alone, so they may require what those know. `spans` says
// how far the loads may go, and `sets` has the nodes of a set; `loaded` is a graph under loads within its spans, and
// `ways` has the two ways over an arc. `reach` labels the nodes that can be reached from those with a surplus, over steps
// that the loads leave open, `explore` goes fast from node to node over the lists of `near`, `push` moves an amount along
// the way that was found, `surpluses` keeps account, and `meet` does so until no surplus is left.

#![tactic(auto)]

mod explore;
mod loaded;
pub mod meet;
mod near;
mod push;
mod reach;
pub mod sets;
pub mod spans;
mod surpluses;
mod ways;
