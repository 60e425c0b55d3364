// Numbers that are handed over, and the limits within which they must lie.
ghost use Rattle.std.specs.Prelude.{◌≡◌, not, position};
ghost use Rattle.cost.specs.Limits.{within, outside, first_outside};
ghost use Rattle.std.specs.Result.{result_err};

// The lowest and the highest number that is accepted.
#[derive(Clone, Copy, Debug)]
pub struct Limits {
    pub low: i64,
    pub high: i64,
}

// A number outside its limits, by its position among the numbers of the call, from 1.
#[derive(Clone, Copy, Debug, PartialEq, Eq)]
pub enum NumberFault {
    Outside(usize),
}

pub const LOADS: Limits = Limits {
    low: 0,
    high: 10_000,
};

pub const OPENINGS: Limits = Limits {
    low: -1_000_000_000,
    high: 1_000_000_000,
};

pub const WIDTHS: Limits = Limits {
    low: 1,
    high: 10_000,
};

pub const INCREMENTS: Limits = Limits {
    low: -1_000_000,
    high: 1_000_000,
};

pub const SQUARES: Limits = Limits {
    low: 0,
    high: 1_000_000,
};

// The arrays of a stepped cost, in a crate above, have room for as many.
pub const COUNTS: Limits = Limits { low: 0, high: 8 };

impl Limits {
    // The number lies within the limits, both ends included.
    pub fn contain(self, number: i64) -> bool
        ensures { result ≡ within self number }
    {
        (self.low..=self.high).contains(&number)
    }

    // Refuses a number outside the limits.
    pub fn check(self, number: i64, position: usize) -> Result<(), NumberFault>
        ensures { result_err result ≡ outside self position number }
    {
        if self.contain(number) {
            Ok(())
        } else {
            Err(NumberFault::Outside(position))
        }
    }

    // The index of the first number of a list outside the limits.
    fn position_outside(self, numbers: &[i64]) -> Option<usize>
        ensures { result ≡ position (λ x. not (within self x)) numbers.now }
    {
        numbers.iter().position(|number| !self.contain(*number))
    }

    // The place, from 1, of the first number of a list outside the limits.
    pub fn first_outside(self, numbers: &[i64]) -> Option<usize>
        ensures { result ≡ first_outside self numbers.now }
    {
        self.position_outside(numbers).map(|index| index + 1)
    }
}
