// Small costs of each kind, made at random: few loads, slopes of both signs, ties, and now and then a first load above 0.
use cost::costs::Cost;
use cost::refusals::CostFault;
use layered_cost::layers::{Cap, Ceiling};
use quadratic_cost::quadratic::Quadratic;
use random::Random;
use stepped_cost::stepped::Stepped;

// A kind of cost of which there are small random ones, with at most five loads each. The programs share no costs, so that what checks the router stands apart from what measures it.
pub(crate) trait Small: Cost + Copy {
    const WORD: &'static str;

    fn made(random: &mut Random) -> Result<Self, CostFault>;
}

// Two slopes, of which the second is not below the first.
fn rising_slopes(random: &mut Random) -> [i64; 2] {
    let slope = random.between(-3, 3);
    [slope, slope + random.between(0, 3)]
}

impl Small for Stepped {
    const WORD: &'static str = "stepped";

    fn made(random: &mut Random) -> Result<Stepped, CostFault> {
        let first = (random.between(0, 3) - 2).max(0);
        let opening = random.between(-4, 4);
        let widths = [random.between(1, 2), random.between(1, 2)];
        let slopes = rising_slopes(random);
        let count = random.place(4).min(2);
        Stepped::new(first, opening, &widths[0..count], &slopes[0..count])
    }
}

impl Small for Quadratic {
    const WORD: &'static str = "quadratic";

    fn made(random: &mut Random) -> Result<Quadratic, CostFault> {
        Quadratic::new(
            random.between(-4, 4),
            random.between(0, 2),
            random.between(0, 4),
        )
    }
}

impl Small for Cap<Stepped> {
    const WORD: &'static str = "cap over stepped";

    fn made(random: &mut Random) -> Result<Cap<Stepped>, CostFault> {
        Cap::new(<Stepped as Small>::made(random)?, random.between(0, 4))
    }
}

impl Small for Ceiling<Quadratic> {
    const WORD: &'static str = "ceiling over quadratic";

    fn made(random: &mut Random) -> Result<Ceiling<Quadratic>, CostFault> {
        Ceiling::new(<Quadratic as Small>::made(random)?, random.between(-3, 6))
    }
}

impl Small for Cap<Ceiling<Stepped>> {
    const WORD: &'static str = "cap over ceiling over stepped";

    fn made(random: &mut Random) -> Result<Cap<Ceiling<Stepped>>, CostFault> {
        let below = Ceiling::new(<Stepped as Small>::made(random)?, random.between(-2, 4))?;
        Cap::new(below, random.between(0, 5))
    }
}
