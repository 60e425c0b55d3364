// A network of nodes and arcs, and the theory that makes "cheapest" provable.
//
// An inner crate: its functions are called by the crates above alone, so they may require what those know.
// specs/ has the whole subject in short definitions: routing, surplus, charge, tension, floor, over-full set, cheapest.
// `theorems` has what holds of every network: no floor passes a charge, equal means cheapest, and a set that is over
// full bars every routing. `records` has nodes and arcs, `graph` lends them together; `routing`, `charge` and `floor`
// compute what specs/ defines, as methods of a graph where its nodes and arcs enter into it.

#![tactic(auto)]

pub mod charge;
pub mod floor;
pub mod graph;
pub mod records;
pub mod routing;
pub mod theorems;
