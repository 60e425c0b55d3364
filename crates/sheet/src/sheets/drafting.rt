// A book in the making, in memory. Its steps are in the modules below.
ghost use Rattle.std.specs.Prelude.{◌≤◌};

use crate::sheets::Sheet;

pub mod stages;
pub mod steps;

// A node count that was checked.
#[derive(Clone, Copy)]
pub struct Size {
    count: usize,
    ghost few: { count ≤ 64 },
}

// The book that will be opened, and how many of its nodes were fed a supply.
#[derive(Clone, Copy)]
pub struct Draft {
    book: Sheet,
    fed: usize,
    ghost within: { fed ≤ book.node_count },
}
