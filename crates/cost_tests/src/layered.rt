// Cap and ceiling: their limits, over each other, and with numbers that no constructor took.
use crate::checks::{check_answer, check_cost};
use layered_cost::layers::{Cap, Ceiling};
use quadratic_cost::quadratic::Quadratic;
use std::test::Fail;
use stepped_cost::stepped::Stepped;

#[test]
fn each_limit_on_either_side_of_its_edge(rt: HostRuntime) -> Result<(), Fail> {
    let below = Quadratic::new(4, 3, 2)?;
    check_answer(&rt, Cap::new(below, -1), Some((3, 1)));
    check_answer(&rt, Cap::new(below, 0), None);
    check_answer(&rt, Cap::new(below, 10_000), None);
    check_answer(&rt, Cap::new(below, 10_001), Some((3, 1)));
    check_answer(&rt, Ceiling::new(below, -1_000_001), Some((3, 1)));
    check_answer(&rt, Ceiling::new(below, -1_000_000), None);
    check_answer(&rt, Ceiling::new(below, 1_000_000), None);
    check_answer(&rt, Ceiling::new(below, 1_000_001), Some((3, 1)));
    Ok(())
}

#[test]
fn layers_over_a_cost_and_over_each_other(rt: HostRuntime) -> Result<(), Fail> {
    let below = Quadratic::new(4, 3, 2)?;
    check_cost(&rt, &Cap::new(below, 1)?, 0, 0, &[4]);
    check_cost(&rt, &Ceiling::new(below, 5)?, 0, 0, &[4, 5]);
    check_cost(&rt, &Cap::new(Ceiling::new(below, 3)?, 1)?, 0, 0, &[3]);
    check_cost(&rt, &Ceiling::new(Cap::new(below, 9)?, 3)?, 0, 0, &[3, 3]);
    let late = Stepped::new(2, 7, &[3], &[-1])?;
    check_cost(&rt, &Cap::new(late, 4)?, 2, 7, &[-1, -1]);
    check_cost(&rt, &Cap::new(late, 1)?, 2, 7, &[]);
    check_cost(&rt, &Ceiling::new(late, -3)?, 2, 7, &[-3, -3, -3]);
    Ok(())
}

#[test]
fn numbers_that_no_constructor_took(rt: HostRuntime) -> Result<(), Fail> {
    let below = Quadratic::new(4, 3, 2)?;
    check_cost(
        &rt,
        &Cap {
            below,
            limit: i64::MIN,
        },
        0,
        0,
        &[],
    );
    check_cost(
        &rt,
        &Cap {
            below,
            limit: i64::MAX,
        },
        0,
        0,
        &[4, 10],
    );
    check_cost(
        &rt,
        &Ceiling {
            below,
            limit: i64::MIN,
        },
        0,
        0,
        &[-1_000_000, -1_000_000],
    );
    check_cost(
        &rt,
        &Ceiling {
            below,
            limit: i64::MAX,
        },
        0,
        0,
        &[4, 10],
    );
    Ok(())
}
