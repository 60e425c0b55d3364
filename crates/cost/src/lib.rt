// What an arc of the network charges for its load.
//
// `numbers` has the limits of every number that is handed over, `refusals` what a refused call answers, `costs` the
// trait that every kind of cost keeps, `written` the traits of those kinds that stand in a text as a row of numbers.
// `laws` states what follows from these. Each kind of cost has a crate of its own.

#![tactic(auto)]

pub mod costs;
pub mod laws;
pub mod numbers;
pub mod refusals;
pub mod written;
