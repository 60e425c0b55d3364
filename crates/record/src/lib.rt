// The text record of a network with its costs: an office's program hands over a text and gets a book with its costs, or
// one refusal that names the byte, or the line and the field.
//
// `faults` has what reading and writing refuse. `drafts` reads the first four lines into a draft, `rows` the lines of the
// costs, and `reading` the whole text. `outlines` has what is written of a book, and `writing` writes the whole text.

#![tactic(auto)]

mod drafts;
pub mod faults;
mod outlines;
pub mod reading;
mod rows;
pub mod writing;
