// The stepped cost: pieces of so many requests each, at one increment a piece.
ghost use Rattle.std.specs.Prelude.{◌≡◌, ◌+◌, ◌^◌, ◌<◌, ◌≤◌, drop, int_lt, position, true, false, not, length, pos, ◌≤ℤ◌, is_some, IfOk, IfSome, if◌then◌else◌, Some, None, slice_index_or};
ghost use Rattle.std.specs.List.{slice_get, zip};
ghost use Rattle.std.specs.Option.{option_map};
ghost use Rattle.std.specs.Result.{result_err};
ghost use Rattle.cost.specs.Limits.{outside_each};
ghost use Rattle.cost.specs.Meaning.{natural, total, Between, AllBetween};
ghost use Rattle.cost.specs.Places.{first_place, unless};
ghost use Rattle.cost.specs.Rows.{whole_row};
ghost use Rattle.stepped_cost.specs.StepRows.{stepped_length, stepped_row, stepped_row_meaning, stepped_row_refusal};
ghost use Rattle.stepped_cost.specs.Stepped.{falling, padded, PiecesFit, slopes_of, spread, stepped_content, stepped_meaning, stepped_of, stepped_outside, stepped_refusal, too_long, widths_of, paired};
ghost use Rattle.cost.specs.declared.refusals.CostFault.TheVariants.{Long, Falls};
ghost use Rattle.stepped_cost.specs.Pieces.{content_lawful};
ghost use Rattle.stepped_cost.specs.StepRowsLemmas.{honest, long_tells};
ghost use Rattle.std.proofs.Common.{rules};

use cost::costs::Cost;
use cost::numbers::{COUNTS, INCREMENTS, LOADS, Limits, NumberFault, OPENINGS, WIDTHS};
use cost::refusals::CostFault;
use cost::written::{Recorded, Row, Written};

pub const MOST_PIECES: usize = 8;

// Any content is a cost; one that `new` would refuse means the empty cost. Of the widths and slopes the first `count` count.
// The numbers lie open and the arrays keep their size, since a cost is plain data of which any content is a cost.
#[derive(Clone, Copy, Debug, Default, PartialEq, Eq)]
pub struct Stepped {
    pub first: i64,
    pub opening: i64,
    pub count: usize,
    pub widths: [i64; MOST_PIECES],
    pub slopes: [i64; MOST_PIECES],
}

// Refuses the first number of a list outside the limits; `before` numbers of the call stand before the list.
fn check_each(limits: Limits, numbers: &[i64], before: usize) -> Result<(), NumberFault>
    requires { before + length numbers.now < 2 ^ 64 }
    ensures { result_err result ≡ outside_each limits before numbers.now }
{
    match limits.first_outside(numbers) {
        Some(place) => Err(NumberFault::Outside(before + place)),
        None => Ok(()),
    }
}

// Widths and slopes side by side, as many of one as of the other and at most eight.
#[derive(Clone, Copy)]
struct Steps<'a> {
    widths: &'a [i64],
    slopes: &'a [i64],
    ghost pairs: { length widths.now ≡ length slopes.now },
    ghost few: { length widths.now ≤ 8 },
}

impl<'a> Steps<'a> {
    // Puts widths and slopes side by side; absent unless they are as many, and at most eight.
    fn of(widths: &'a [i64], slopes: &'a [i64]) -> Option<Steps<'a>>
        ensures absent { is_some result ≡ paired widths.now slopes.now }
        ensures same { IfSome result (λ steps. (steps.widths.now ≡ widths.now) × (steps.slopes.now ≡ slopes.now)) }
    {
        if widths.len() == slopes.len() && widths.len() <= MOST_PIECES {
            Some(Steps { widths, slopes })
        } else {
            None
        }
    }

    // Refuses the first number outside its limits.
    fn check_numbers(self, first: i64, opening: i64) -> Result<(), NumberFault>
        ensures { result_err result ≡ stepped_outside first opening self.entry.widths.now self.entry.slopes.now }
    {
        LOADS.check(first, 1)?;
        OPENINGS.check(opening, 2)?;
        check_each(WIDTHS, self.widths, 2)?;
        check_each(INCREMENTS, self.slopes, 2 + self.widths.len())
    }

    // Refuses the first piece at which the first load and the widths pass the limit of a load. That the widths lie within their limits is
    // known only once they were checked, so it is asked here and below, and is no part of the type.
    // A loop, since the sum goes on from each piece to the next.
    fn check_length(self, first: i64) -> Result<(), CostFault>
        requires first { Between (pos 0) (pos 10000) first }
        requires widths { AllBetween (pos 1) (pos 10000) self.widths.now }
        ensures { result_err result ≡ option_map Long (first_place (too_long first self.entry.widths.now) (length self.entry.widths.now)) }
    {
        let mut last = first;
        for (k, width) in self.widths.iter().enumerate() {
            last += *width;
            if last > LOADS.high {
                return Err(CostFault::Long(k + 1));
            }
        }
        Ok(())
    }

    // The index of the first slope whose next one lies below it.
    fn position_of_fall(self) -> Option<usize>
        ensures { result ≡ position (λ pair. int_lt pair.1 pair.0) (zip self.entry.slopes.now (drop 1 self.entry.slopes.now)) }
    {
        self.slopes
            .iter()
            .zip(self.slopes.iter().skip(1))
            .position(|(slope, next)| *next < *slope)
    }

    // Refuses the first piece whose slope lies below the one before.
    fn check_rising(self) -> Result<(), CostFault>
        ensures { result_err result ≡ option_map Falls (first_place (falling self.entry.slopes.now) (length self.entry.slopes.now)) }
    {
        match self.position_of_fall() {
            Some(index) => Err(CostFault::Falls(index + 2)),
            None => Ok(()),
        }
    }

    // The sum of the widths.
    fn width(self) -> i64
        requires { AllBetween (pos 1) (pos 10000) self.widths.now }
        ensures { result ≡ total self.entry.widths.now }
    {
        self.widths.iter().sum()
    }

    // The increment after `beyond` requests: the slope of the piece in which it lies.
    fn slope_at(self, beyond: i64) -> Option<i64>
        requires within { AllBetween (pos 1) (pos 10000) self.widths.now }
        requires beyond { pos 0 ≤ℤ beyond }
        ensures { result ≡ slice_get (spread self.entry.widths.now self.entry.slopes.now) (natural beyond) }
    {
        let mut left = beyond;
        for (width, slope) in self.widths.iter().zip(self.slopes) {
            if left < *width {
                return Some(*slope);
            }
            left -= *width;
        }
        None
    }

    // Whether the pieces keep their laws behind a first load.
    // One walk, since each increment that is asked for comes through here.
    fn fit(self, first: i64) -> bool
        requires { Between (pos 0) (pos 10000) first }
        ensures fit { result ≡ true → PiecesFit first self.entry.widths.now self.entry.slopes.now }
        ensures unfit { result ≡ false → PiecesFit first self.entry.widths.now self.entry.slopes.now → ⊥ }
    {
        let mut last = first;
        let mut least = INCREMENTS.low;
        for (width, slope) in self.widths.iter().zip(self.slopes) {
            if !WIDTHS.contain(*width) || *slope < least {
                return false;
            }
            last += *width;
            least = *slope;
        }
        last <= LOADS.high && least <= INCREMENTS.high
    }
}

// Numbers in an array of eight, with 0 behind them.
fn padded_to_eight(numbers: &[i64]) -> [i64; MOST_PIECES]
    requires { length numbers.now ≤ 8 }
    ensures { result ≡ padded numbers.now }
{
    let mut row = [0; MOST_PIECES];
    row[..numbers.len()].copy_from_slice(numbers);
    row
}

// The count of pieces of a row that is as long as it tells.
fn count_of(numbers: &[i64]) -> Option<usize>
    ensures { result ≡ (if whole_row stepped_length numbers.now then Some (natural (slice_index_or numbers.now 0 (pos 0))) else None) }
{
    let count = *numbers.first()?;
    let told = Stepped::row_length(count)?;
    if told == numbers.len() {
        Some(count as usize)
    } else {
        None
    }
}

impl Stepped {
    // Refuses what no stepped cost is made of.
    fn check(first: i64, opening: i64, widths: &[i64], slopes: &[i64]) -> Result<(), CostFault>
        ensures { result_err result ≡ stepped_refusal first opening widths.now slopes.now }
    {
        let steps = Steps::of(widths, slopes).ok_or(CostFault::Pieces)?;
        steps.check_numbers(first, opening)?;
        steps.check_length(first)?;
        steps.check_rising()
    }

    pub fn new(
        first: i64,
        opening: i64,
        widths: &[i64],
        slopes: &[i64],
    ) -> Result<Stepped, CostFault>
        ensures answer { result ≡ unless (stepped_refusal first opening widths.now slopes.now) (stepped_of first opening widths.now slopes.now) }
        ensures means { IfOk result (λ c. stepped_content c ≡ stepped_meaning first opening widths.now slopes.now) }
    {
        Stepped::check(first, opening, widths, slopes)?;
        Ok(Stepped {
            first,
            opening,
            count: widths.len(),
            widths: padded_to_eight(widths),
            slopes: padded_to_eight(slopes),
        })
    }

    // The cost of a row: the count of pieces, the first load, the opening amount, the widths and the slopes.
    fn of_row(numbers: &[i64]) -> Result<Stepped, CostFault>
        ensures answer { result_err result ≡ stepped_row_refusal numbers.now }
        ensures filled { IfOk result (λ c. (stepped_row c ≡ numbers.now) × (stepped_content c ≡ stepped_row_meaning numbers.now)) }
    {
        let count = count_of(numbers).ok_or(CostFault::Pieces)?;
        let (widths, slopes) = numbers[3..].split_at(count);
        Stepped::new(numbers[1], numbers[2], widths, slopes)
    }

    // The widths and the slopes of the pieces that count.
    fn steps(&self) -> Steps<'_>
        ensures widths { result.widths.now ≡ widths_of self.now }
        ensures slopes { result.slopes.now ≡ slopes_of self.now }
    {
        let count = self.count.min(MOST_PIECES);
        Steps {
            widths: &self.widths[0..count],
            slopes: &self.slopes[0..count],
        }
    }

    // The content is one that `new` makes.
    fn is_made(&self) -> bool
        ensures { result ≡ not (is_some (stepped_refusal self.now.first self.now.opening (widths_of self.now) (slopes_of self.now))) }
    {
        if !LOADS.contain(self.first) || !OPENINGS.contain(self.opening) {
            return false;
        }
        self.steps().fit(self.first)
    }
}

impl Cost for Stepped {
    ghost meaning = { stepped_content };

    ghost lawful = { λ c. content_lawful c };

    fn first_load(&self) -> i64 {
        if self.is_made() { self.first } else { 0 }
    }

    fn last_load(&self) -> i64 {
        if !self.is_made() {
            return 0;
        }
        self.first + self.steps().width()
    }

    fn opening_amount(&self) -> i64 {
        if self.is_made() { self.opening } else { 0 }
    }

    fn increment_at(&self, load: i64) -> Option<i64> {
        if !self.is_made() || load < self.first {
            return None;
        }
        self.steps().slope_at(load - self.first)
    }
}

impl Written for Stepped {
    const LETTER: char = 'S';

    ghost LETTER = { 83 };

    ghost long = { stepped_length };

    ghost refuses = { stepped_row_refusal };

    ghost means = { stepped_row_meaning };

    ghost row = { stepped_row };

    ghost accepted = { λ c. (honest c).accepted };

    ghost told = { λ c. (honest c).long };

    fn row_length(first: i64) -> Option<usize> {
        if COUNTS.contain(first) {
            Some(3 + 2 * first as usize)
        } else {
            None
        }
    }

    fn fill(&mut self, numbers: &[i64]) -> Result<(), CostFault> {
        *self = Stepped::of_row(numbers)?;
        Ok(())
    }

    fn row(&self) -> Row {
        let mut row = Row::empty();
        if self.is_made() {
            let steps = self.steps();
            row.extend(&[steps.widths.len() as i64, self.first, self.opening]);
            row.extend(steps.widths);
            row.extend(steps.slopes);
        } else {
            row.extend(&[0, 0, 0]);
        }
        row
    }
}

impl Recorded for Stepped {
    ghost meant = { λ c. (honest c).means };

    ghost brief = { λ c. (honest c).brief };

    ghost few = { λ first n told. long_tells first n told };

    ghost legible = { Prim.search rules };
}
