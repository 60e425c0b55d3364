// Rows: tables of rows that are filled in or refused, and rows that come back.
use crate::checks::check_answer;
use cost::laws::copy_by_row;
use cost::written::Written;
use quadratic_cost::quadratic::Quadratic;
use std::process::Abort;
use std::test::Fail;
use stepped_cost::stepped::Stepped;

// A row, and the number and place of its refusal, if any.
#[derive(Drop)]
struct Filling<'a> {
    row: &'a [i64],
    refusal: Option<(usize, usize)>,
}

// A row that is filled in.
const fn filled<'a>(row: &'a [i64]) -> Filling<'a> {
    Filling { row, refusal: None }
}

// A row that is refused.
const fn refused<'a>(row: &'a [i64], number: usize, place: usize) -> Filling<'a> {
    Filling {
        row,
        refusal: Some((number, place)),
    }
}

// A row that is accepted is the cost's row from then on, and one that is refused leaves the cost's row as it was.
fn check_filling<W: Written + Copy>(rt: &impl Abort, start: W, filling: &Filling) {
    let mut cost = start;
    check_answer(rt, cost.fill(filling.row), filling.refusal);
    let before = start.row();
    let after = cost.row();
    let expected = match filling.refusal {
        None => filling.row,
        Some(_) => before.as_slice(),
    };
    assert!(rt; after.as_slice() == expected);
}

#[test]
fn stepped_rows(rt: HostRuntime) -> Result<(), Fail> {
    let fillings = [
        refused(&[], 1, 0),
        refused(&[0], 1, 0),
        refused(&[0, 5], 1, 0),
        filled(&[0, 5, 6]),
        refused(&[0, 5, 6, 7], 1, 0),
        refused(&[1, 5, 6, 7], 1, 0),
        filled(&[1, 5, 6, 7, 8]),
        filled(&[2, 2, 7, 3, 1, -1, 4]),
        filled(&[8, 0, 0, 1, 1, 1, 1, 1, 1, 1, 1, 2, 2, 2, 2, 2, 2, 2, 2]),
        refused(
            &[
                9, 0, 0, 1, 1, 1, 1, 1, 1, 1, 1, 1, 2, 2, 2, 2, 2, 2, 2, 2, 2,
            ],
            1,
            0,
        ),
        refused(&[-1, 0, 0], 1, 0),
        refused(&[i64::MAX, 0, 0], 1, 0),
        refused(&[1, -1, 0, 1, 1], 3, 1),
        refused(&[1, 0, 0, 0, 1], 3, 3),
        refused(&[1, 9_999, 0, 2, 1], 4, 1),
        refused(&[2, 0, 0, 1, 1, 4, 3], 5, 2),
    ];
    let start = Stepped::new(2, 7, &[3], &[-1])?;
    for filling in &fillings {
        check_filling(&rt, start, filling);
    }
    assert_eq!(rt; Stepped::LETTER, 'S');
    Ok(())
}

#[test]
fn quadratic_rows(rt: HostRuntime) -> Result<(), Fail> {
    let fillings = [
        refused(&[], 1, 0),
        refused(&[4, 3], 1, 0),
        filled(&[4, 3, 2]),
        refused(&[4, 3, 2, 1], 1, 0),
        refused(&[4, -3, 2], 3, 2),
        refused(&[0, 1_000_000, 2], 6, 0),
    ];
    let start = Quadratic::new(1, 1, 1)?;
    for filling in &fillings {
        check_filling(&rt, start, filling);
    }
    assert_eq!(rt; Quadratic::LETTER, 'Q');
    Ok(())
}

#[test]
fn a_row_comes_back(rt: HostRuntime) -> Result<(), Fail> {
    let from = Stepped::new(2, 7, &[3, 1], &[-1, 4])?;
    let mut to = Stepped::new(0, 0, &[], &[])?;
    copy_by_row(&from, &mut to)?;
    assert!(rt; to == from);
    let unmade = Quadratic { a: 0, b: -1, c: 5 };
    let mut place = Quadratic::new(1, 1, 1)?;
    copy_by_row(&unmade, &mut place)?;
    assert!(rt; place == Quadratic { a: 0, b: 0, c: 0 });
    Ok(())
}
