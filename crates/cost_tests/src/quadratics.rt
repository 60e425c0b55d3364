// The quadratic cost: a table of constructions, what a made cost answers, and contents that no constructor made.
use crate::checks::{check_answer, check_cost};
use quadratic_cost::quadratic::Quadratic;
use std::test::Fail;

#[test]
fn each_refusal_on_either_side_of_its_edge(rt: HostRuntime) {
    // a, b, c and the number and place of the refusal, if any
    let cases: [(i64, i64, i64, Option<(usize, usize)>); 22] = [
        (0, 0, 0, None),
        (-1_000_000, 0, 10_000, None),
        (-1_000_001, 0, 0, Some((3, 1))),
        (1_000_000, 0, 10_000, None),
        (1_000_001, 0, 0, Some((3, 1))),
        (i64::MIN, i64::MIN, i64::MIN, Some((3, 1))),
        (0, -1, 0, Some((3, 2))),
        (0, 1_000_000, 1, None),
        (0, 1_000_001, 1, Some((3, 2))),
        (0, i64::MAX, i64::MAX, Some((3, 2))),
        (0, 0, -1, Some((3, 3))),
        (0, 0, 10_000, None),
        (0, 0, 10_001, Some((3, 3))),
        (0, 0, i64::MAX, Some((3, 3))),
        (0, 1_000_000, 0, None),
        (0, 1_000_000, 2, Some((6, 0))),
        (0, 500_000, 2, None),
        (1, 500_000, 2, Some((6, 0))),
        (-1_000_000, 1_000_000, 2, None),
        (-1_000_000, 1_000_000, 3, Some((6, 0))),
        (0, 50, 10_000, None),
        (1, 1_000_000, 10_000, Some((6, 0))),
    ];
    for (a, b, c, refusal) in cases {
        check_answer(&rt, Quadratic::new(a, b, c), refusal);
    }
}

#[test]
fn a_made_cost_answers_its_increments(rt: HostRuntime) -> Result<(), Fail> {
    check_cost(&rt, &Quadratic::new(4, 3, 2)?, 0, 0, &[4, 10]);
    check_cost(&rt, &Quadratic::new(-5, 0, 3)?, 0, 0, &[-5, -5, -5]);
    check_cost(&rt, &Quadratic::new(9, 9, 0)?, 0, 0, &[]);
    Ok(())
}

#[test]
fn what_no_constructor_made_is_the_empty_cost(rt: HostRuntime) {
    check_cost(&rt, &Quadratic { a: 0, b: -1, c: 5 }, 0, 0, &[]);
    check_cost(
        &rt,
        &Quadratic {
            a: i64::MAX,
            b: i64::MAX,
            c: i64::MAX,
        },
        0,
        0,
        &[],
    );
    check_cost(
        &rt,
        &Quadratic {
            a: 0,
            b: 1_000_000,
            c: 2,
        },
        0,
        0,
        &[],
    );
}

#[test]
fn the_default_is_the_empty_cost(rt: HostRuntime) {
    check_cost(&rt, &Quadratic::default(), 0, 0, &[]);
}
