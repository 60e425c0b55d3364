// The stepped cost: a table of constructions, what a made cost answers, and contents that no constructor made.
use crate::checks::{check_answer, check_cost};
use std::test::Fail;
use stepped_cost::stepped::Stepped;

// What a constructor is given, and the number and place of the refusal, if any.
#[derive(Drop)]
struct Construction<'a> {
    first: i64,
    opening: i64,
    widths: &'a [i64],
    slopes: &'a [i64],
    refusal: Option<(usize, usize)>,
}

// Numbers of which a cost is made.
const fn made<'a>(
    first: i64,
    opening: i64,
    widths: &'a [i64],
    slopes: &'a [i64],
) -> Construction<'a> {
    Construction {
        first,
        opening,
        widths,
        slopes,
        refusal: None,
    }
}

// Numbers that are refused.
const fn refused<'a>(
    first: i64,
    opening: i64,
    widths: &'a [i64],
    slopes: &'a [i64],
    number: usize,
    place: usize,
) -> Construction<'a> {
    Construction {
        first,
        opening,
        widths,
        slopes,
        refusal: Some((number, place)),
    }
}

#[test]
fn each_refusal_on_either_side_of_its_edge(rt: HostRuntime) {
    let cases = [
        made(0, 0, &[], &[]),
        refused(0, 0, &[3], &[1, 2], 1, 0),
        made(0, 0, &[1, 1, 1, 1, 1, 1, 1, 1], &[1, 1, 1, 1, 1, 1, 1, 1]),
        refused(
            0,
            0,
            &[1, 1, 1, 1, 1, 1, 1, 1, 1],
            &[1, 1, 1, 1, 1, 1, 1, 1, 1],
            1,
            0,
        ),
        refused(-1, 0, &[], &[], 3, 1),
        made(10_000, 0, &[], &[]),
        refused(10_001, 0, &[], &[], 3, 1),
        refused(i64::MIN, i64::MAX, &[], &[], 3, 1),
        made(0, -1_000_000_000, &[], &[]),
        refused(0, -1_000_000_001, &[], &[], 3, 2),
        made(0, 1_000_000_000, &[], &[]),
        refused(0, 1_000_000_001, &[], &[], 3, 2),
        refused(0, i64::MIN, &[], &[], 3, 2),
        refused(0, 0, &[0], &[1], 3, 3),
        made(0, 0, &[1], &[1]),
        made(0, 0, &[10_000], &[1]),
        refused(0, 0, &[10_001], &[1], 3, 3),
        refused(0, 0, &[65_537], &[1], 3, 3),
        refused(0, 0, &[1, i64::MAX], &[1, 2], 3, 4),
        refused(0, 0, &[1, 1], &[1, i64::MAX], 3, 6),
        made(0, 0, &[1], &[-1_000_000]),
        refused(0, 0, &[1], &[-1_000_001], 3, 4),
        made(0, 0, &[1], &[1_000_000]),
        refused(0, 0, &[1], &[1_000_001], 3, 4),
        made(9_999, 0, &[1], &[1]),
        refused(9_999, 0, &[2], &[1], 4, 1),
        refused(9_999, 0, &[1, 1], &[1, 1], 4, 2),
        refused(0, 0, &[10_000, 10_000], &[1, 1], 4, 2),
        made(0, 0, &[1, 1], &[4, 4]),
        refused(0, 0, &[1, 1], &[4, 3], 5, 2),
        refused(0, 0, &[1, 1, 1], &[4, 5, -5], 5, 3),
        // where two conditions hold, the upper one is given
        refused(-1, 0, &[1], &[], 1, 0),
        refused(9_999, 0, &[1, 0], &[5, 4], 3, 4),
        refused(9_999, 0, &[1, 1], &[5, 4], 4, 2),
    ];
    for case in &cases {
        check_answer(
            &rt,
            Stepped::new(case.first, case.opening, case.widths, case.slopes),
            case.refusal,
        );
    }
}

#[test]
fn a_made_cost_answers_its_pieces(rt: HostRuntime) -> Result<(), Fail> {
    check_cost(&rt, &Stepped::new(2, 7, &[3], &[-1])?, 2, 7, &[-1, -1, -1]);
    check_cost(
        &rt,
        &Stepped::new(0, 0, &[2, 2], &[2, 5])?,
        0,
        0,
        &[2, 2, 5, 5],
    );
    check_cost(
        &rt,
        &Stepped::new(9_999, -5, &[1], &[1_000_000])?,
        9_999,
        -5,
        &[1_000_000],
    );
    check_cost(&rt, &Stepped::new(10_000, 9, &[], &[])?, 10_000, 9, &[]);
    Ok(())
}

#[test]
fn what_no_constructor_made_is_the_empty_cost(rt: HostRuntime) -> Result<(), Fail> {
    let made = Stepped::new(1, 2, &[2, 1], &[3, 4])?;
    check_cost(&rt, &made, 1, 2, &[3, 3, 4]);
    let fewer = Stepped { count: 1, ..made };
    check_cost(&rt, &fewer, 1, 2, &[3, 3]);
    // the third piece has width 0
    let more = Stepped { count: 3, ..made };
    check_cost(&rt, &more, 0, 0, &[]);
    let low = Stepped { first: -1, ..made };
    check_cost(&rt, &low, 0, 0, &[]);
    let dear = Stepped {
        opening: i64::MAX,
        ..made
    };
    check_cost(&rt, &dear, 0, 0, &[]);
    let full = Stepped {
        first: 0,
        opening: 0,
        count: usize::MAX,
        widths: [1; 8],
        slopes: [7; 8],
    };
    check_cost(&rt, &full, 0, 0, &[7, 7, 7, 7, 7, 7, 7, 7]);
    Ok(())
}

#[test]
fn the_default_is_the_empty_cost(rt: HostRuntime) {
    check_cost(&rt, &Stepped::default(), 0, 0, &[]);
}
