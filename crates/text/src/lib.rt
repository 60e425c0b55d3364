// Reading and writing the pieces of a text: fields parted by one space, in lines that end in byte 10.
//
// This is an inner crate: its functions are called by the crates above it alone. `fields` finds a field, `numerals`
// reads the number in it, and `cursor` walks through a text and gives the offset of the first byte that is not of the
// form. `writing` writes bytes and numbers into bytes that are lent. `theorems` asserts that what is written reads
// back, and that only what is written is read.

#![tactic(auto)]

pub mod cursor;
mod fields;
mod numerals;
pub mod theorems;
pub mod writing;
