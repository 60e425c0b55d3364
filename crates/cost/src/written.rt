// The kinds of cost that can stand in a text: what a kind says of its letter and of its rows.
ghost use Rattle.std.specs.Prelude.{◌≡◌, ℕ, ◌^◌, ◌<◌, ◌≤◌, List, [], ◌∷◌, ◌++◌, length, take, ℤ, pos, Some, None, Option, OnErr, OnOk, slice_index_or, unsigned_abs};
ghost use Rattle.std.specs.Result.{result_err};
ghost use Rattle.cost.specs.Meaning.{Meaning};
ghost use Rattle.cost.specs.Rows.{numbers_of};
ghost use Rattle.cost.specs.declared.refusals.CostFault.{CostFault as Fault};

use crate::costs::Cost;
use crate::refusals::CostFault;

pub const MOST_NUMBERS: usize = 19;

// A row of numbers, of which the first `count` count. A row is plain data that is copied, and any content of it is a row.
#[derive(Clone, Copy, Debug, PartialEq, Eq)]
pub struct Row {
    pub count: usize,
    pub numbers: [i64; MOST_NUMBERS],
}

impl Row {
    pub fn empty() -> Row
        ensures { numbers_of result ≡ [] }
    {
        Row {
            count: 0,
            numbers: [0; MOST_NUMBERS],
        }
    }

    // The numbers that count.
    pub fn as_slice(&self) -> &[i64]
        ensures { result.now ≡ numbers_of self.now }
    {
        let count = self.count.min(MOST_NUMBERS);
        &self.numbers[0..count]
    }

    // The numbers of a list more, as far as a row of nineteen has room for them.
    pub fn extend(&mut self, numbers: &[i64])
        ensures { numbers_of self.new ≡ take 19 (numbers_of self.old ++ numbers.now) }
    {
        for number in numbers {
            if self.count < MOST_NUMBERS {
                self.numbers[self.count] = *number;
                self.count += 1;
            }
        }
    }
}

// A kind that stands in a text says by `LETTER` its letter, by `long` how many numbers a row has that begins with a number, by `refuses` why a row
// makes no cost, by `means` what a row means that is not refused, and by `row` the row of any content.
pub trait Written: Cost {
    const LETTER: char;

    ghost LETTER: { ℕ };

    ghost long: { ℤ → Option ℕ };

    ghost refuses: { List ℤ → Option Fault };

    ghost means: { List ℤ → Meaning };

    ghost row: { Self → List ℤ };

    // How many numbers a row has that begins with `first`; absent where no row begins so.
    fn row_length(first: i64) -> Option<usize>
        ensures { result ≡ long first };

    // Becomes the cost of a row, or refuses it and stays as it was.
    fn fill(&mut self, numbers: &[i64]) -> Result<(), CostFault>
        ensures answer { result_err result ≡ refuses numbers.now }
        ensures filled { OnOk result ((row self.new ≡ numbers.now) × (Self.Cost.meaning self.new ≡ means numbers.now)) }
        ensures untouched { OnErr result (self.new ≡ self.old) };

    // The row of this cost, with what it means.
    fn row(&self) -> Row
        ensures row { numbers_of result ≡ row self.now }
        ensures means { Self.Cost.meaning self.now ≡ means (row self.now) };

    // The row of a content is a row that is accepted, and as long as its first number tells.
    ghost accepted: { (c : Self) → refuses (row c) ≡ None };

    ghost told: { (c : Self) → long (slice_index_or (row c) 0 (pos 0)) ≡ Some (length (row c)) };
}

// A written kind whose contents mean what their rows mean, and whose letter and rows fit the lines of a record.
pub trait Recorded: Written {
    // A content means what its row means.
    ghost meant: { (c : Self) → Self.Cost.meaning c ≡ Self.Written.means (Self.Written.row c) };

    // Each number of the row of a content has at most ten digits.
    ghost brief: { (c : Self) (k : ℕ) → k < length (Self.Written.row c) → unsigned_abs (slice_index_or (Self.Written.row c) k (pos 0)) < 10 ^ 10 };

    // A row has from 1 to 19 numbers.
    ghost few: { (first : ℤ) (n : ℕ) → Self.Written.long first ≡ Some n → (1 ≤ n) × (n ≤ 19) };

    // The letter is visible and one byte long.
    ghost legible: { (32 < Self.Written.LETTER) × (Self.Written.LETTER < 127) };
}
