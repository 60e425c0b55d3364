// Costs of two kinds, made at random.
ghost use Rattle.std.specs.Prelude.{◌≤◌};

use arrayvec::ArrayVec;
use cost::costs::Cost;
use cost::refusals::CostFault;
use quadratic_cost::quadratic::Quadratic;
use random::Random;
use stepped_cost::stepped::{MOST_PIECES, Stepped};

// How much a slope can lie above the least that its piece may have.
const RISE: i64 = 100_000;

// A kind of cost of which there are random ones. The programs share no costs, so that what checks the router stands apart from what measures it.
pub(crate) trait Kind: Cost + Copy {
    const WORD: &'static str;

    // A cost that carries a random number of requests, fewer than 10,000.
    fn narrow(random: &mut Random) -> Result<Self, CostFault>;

    // A cost that carries up to 10,000 requests.
    fn wide(random: &mut Random) -> Result<Self, CostFault>;
}

// How many pieces a stepped cost has: three to eight.
fn piece_count(random: &mut Random) -> usize
    ensures some { 3 ≤ result }
    ensures few { result ≤ 8 }
{
    3 + random.place(6)
}

// A stepped cost of so many pieces; each takes its width before its slope is drawn.
fn of_pieces<F: Fn(&mut Random) -> i64>(
    random: &mut Random,
    count: usize,
    width: F,
) -> Result<Stepped, CostFault>
    requires few { count ≤ 8 }
    requires callable { F.IsAlwaysCallable width }
{
    let mut widths = ArrayVec::<i64, MOST_PIECES>::new();
    let mut slopes = ArrayVec::<i64, MOST_PIECES>::new();
    for k in 0..count {
        widths.push(width(random));
        // usize has no From into i64; the proof shows that the cast keeps the number
        slopes.push(k as i64 * RISE + random.between(0, RISE));
    }
    Stepped::new(0, 0, widths.as_slice(), slopes.as_slice())
}

impl Kind for Stepped {
    const WORD: &'static str = "stepped";

    // Three to eight pieces, each of up to 1,200 requests.
    fn narrow(random: &mut Random) -> Result<Stepped, CostFault> {
        let count = piece_count(random);
        of_pieces(
            random,
            count,
            |random: &mut Random| random.between(1, 1_200),
        )
    }

    // Three to eight pieces of one width.
    fn wide(random: &mut Random) -> Result<Stepped, CostFault> {
        let count = piece_count(random);
        let width = 10_000 / count as i64;
        of_pieces(random, count, |_: &mut Random| width)
    }
}

impl Kind for Quadratic {
    const WORD: &'static str = "quadratic";

    fn narrow(random: &mut Random) -> Result<Quadratic, CostFault> {
        Quadratic::new(
            random.between(0, 1_000),
            random.between(0, 100),
            random.between(1, 2_000),
        )
    }

    fn wide(random: &mut Random) -> Result<Quadratic, CostFault> {
        Quadratic::new(random.between(0, 1_000), random.between(1, 10), 10_000)
    }
}
