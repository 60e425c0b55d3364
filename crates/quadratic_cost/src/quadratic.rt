// The quadratic cost a·x + b·x², up to a last load.
ghost use Rattle.std.specs.Prelude.{◌≡◌, not, pos, negsuc, is_some, IfOk, None};
ghost use Rattle.std.specs.Result.{result_err};
ghost use Rattle.cost.specs.Places.{unless};
ghost use Rattle.cost.specs.Meaning.{Between};
ghost use Rattle.quadratic_cost.specs.Quadratic.{quadratic_increment, quadratic_outside, steep, quadratic_refusal, quadratic_meaning, quadratic_content, quadratic_length, quadratic_row, quadratic_row_meaning, quadratic_row_refusal};
ghost use Rattle.quadratic_cost.specs.Squares.{content_lawful, brief_row};
ghost use Rattle.std.proofs.Common.{rules};

use cost::costs::Cost;
use cost::numbers::{INCREMENTS, LOADS, NumberFault, SQUARES};
use cost::refusals::CostFault;
use cost::written::{Recorded, Row, Written};

// Any three numbers are a content; those that `new` would refuse mean the empty cost.
#[derive(Clone, Copy, Debug, Default, PartialEq, Eq)]
pub struct Quadratic {
    pub a: i64,
    pub b: i64,
    pub c: i64,
}

impl Quadratic {
    // Refuses the first of the three numbers outside its limits.
    fn check_numbers(self) -> Result<(), NumberFault>
        ensures { result_err result ≡ quadratic_outside self.a self.b self.c }
    {
        INCREMENTS.check(self.a, 1)?;
        SQUARES.check(self.b, 2)?;
        LOADS.check(self.c, 3)
    }

    // What going from `load` to the next load adds.
    fn increment(self, load: i64) -> i64
        requires numbers { quadratic_outside self.a self.b self.c ≡ None }
        requires load { Between (pos 0) (pos 10000) load }
        ensures { result ≡ quadratic_increment self.a self.b load }
    {
        self.a + 2 * self.b * load
    }

    // The last increment passes the limit of an increment.
    fn is_steep(self) -> bool
        requires { quadratic_outside self.a self.b self.c ≡ None }
        ensures { result ≡ steep self.a self.b self.c }
    {
        self.c >= 1 && self.increment(self.c - 1) > INCREMENTS.high
    }

    // Refuses what no quadratic cost is made of.
    fn check(self) -> Result<(), CostFault>
        ensures { result_err result ≡ quadratic_refusal self.a self.b self.c }
    {
        self.check_numbers()?;
        if self.is_steep() {
            return Err(CostFault::Steep);
        }
        Ok(())
    }

    pub fn new(a: i64, b: i64, c: i64) -> Result<Quadratic, CostFault>
        ensures answer { result ≡ unless (quadratic_refusal a b c) (record { a = a; b = b; c = c }) }
        ensures means { IfOk result (λ q. quadratic_content q ≡ quadratic_meaning a b c) }
    {
        let made = Quadratic { a, b, c };
        made.check()?;
        Ok(made)
    }

    // The cost of a row: a, b and c.
    fn of_row(numbers: &[i64]) -> Result<Quadratic, CostFault>
        ensures answer { result_err result ≡ quadratic_row_refusal numbers.now }
        ensures filled { IfOk result (λ q. (quadratic_row q ≡ numbers.now) × (quadratic_content q ≡ quadratic_row_meaning numbers.now)) }
    {
        match numbers {
            [a, b, c] => Quadratic::new(*a, *b, *c),
            _ => Err(CostFault::Pieces),
        }
    }

    // The content is one that `new` makes.
    fn is_made(self) -> bool
        ensures { result ≡ not (is_some (quadratic_refusal self.a self.b self.c)) }
    {
        self.check().is_ok()
    }
}

impl Cost for Quadratic {
    ghost meaning = { quadratic_content };

    ghost lawful = { λ c. content_lawful c };

    fn first_load(&self) -> i64 {
        0
    }

    fn last_load(&self) -> i64 {
        if self.is_made() { self.c } else { 0 }
    }

    fn opening_amount(&self) -> i64 {
        0
    }

    fn increment_at(&self, load: i64) -> Option<i64> {
        if self.is_made() && 0 <= load && load < self.c {
            Some(self.increment(load))
        } else {
            None
        }
    }
}

impl Written for Quadratic {
    const LETTER: char = 'Q';

    ghost LETTER = { 81 };

    ghost long = { quadratic_length };

    ghost refuses = { quadratic_row_refusal };

    ghost means = { quadratic_row_meaning };

    ghost row = { quadratic_row };

    ghost accepted = { Prim.search rules };

    ghost told = { Prim.search rules };

    fn row_length(_first: i64) -> Option<usize> {
        Some(3)
    }

    fn fill(&mut self, numbers: &[i64]) -> Result<(), CostFault> {
        *self = Quadratic::of_row(numbers)?;
        Ok(())
    }

    fn row(&self) -> Row {
        let mut row = Row::empty();
        if self.is_made() {
            row.extend(&[self.a, self.b, self.c]);
        } else {
            row.extend(&[0, 0, 0]);
        }
        row
    }
}

impl Recorded for Quadratic {
    ghost meant = { Prim.search rules };

    ghost brief = { λ q. brief_row q };

    ghost few = { Prim.search rules };

    ghost legible = { Prim.search rules };
}
