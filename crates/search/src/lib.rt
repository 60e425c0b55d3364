// The search for a cheapest routing.
//
// An inner crate: its functions are called by the crates above alone, so they may require what those know. `networks` has
// what is searched, a graph with costs. `narrow` finds the span of the loads of each arc that are slack near its tension,
// `improve` raises prices until some routing is slack, `draw` draws the prices together, and `settle` is the search as a whole.

#![tactic(auto)]

mod draw;
mod improve;
mod narrow;
mod networks;
pub mod settle;
