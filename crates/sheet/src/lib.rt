// The sheet of a purchasing office: the book that it drafts, edits, prices and settles.
//
// `sheets` has the sheet in memory, with its calls: the draft, look-ups, charge and floor, edits, and settle.

#![tactic(auto)]

pub use ledger::{faults, standing};

pub mod sheets;
