// Charge and floor, at stepped, quadratic and layered costs.
use crate::checks::{Refused, book, check_sheet};
use layered_cost::layers::{Cap, Ceiling};
use quadratic_cost::quadratic::Quadratic;
use sheet::sheets::Sheet;
use std::test::Fail;
use stepped_cost::stepped::Stepped;

#[test]
fn stepped(rt: HostRuntime) -> Result<(), Fail> {
    let sheet = book(&[4, 0, -4], &[(1, 2), (2, 3), (1, 3)])?;
    let costs = [
        Stepped::new(0, 0, &[4], &[1])?,
        Stepped::new(0, 0, &[4], &[2])?,
        Stepped::new(0, 0, &[2, 2], &[2, 5])?,
    ];
    assert_eq!(rt; sheet.charge(&costs, &[2, 2, 2])?, 10);
    assert_eq!(rt; sheet.floor(&costs, &[3, 2, 0])?, 10);
    assert_eq!(rt;
        sheet.floor_and_charge(&costs, &[4, 4, 0], &[0, 0, 0])?,
        (0, 12)
    );
    assert_eq!(rt; sheet.is_cheapest(&costs, &[2, 2, 2], &[3, 2, 0])?, true);
    assert_eq!(rt; sheet.is_cheapest(&costs, &[0, 0, 4], &[3, 2, 0])?, false);
    // two costs for three arcs
    check_sheet(&rt, sheet.charge(&costs[0..2], &[2, 2, 2]), Some((2, 0)));
    check_sheet(&rt, sheet.charge(&costs, &[2, 2]), Some((2, 0)));
    check_sheet(&rt, sheet.floor(&costs[0..2], &[0, 0, 0]), Some((2, 0)));
    check_sheet(&rt, sheet.floor(&costs, &[0, 0]), Some((2, 0)));
    Ok(())
}

#[test]
fn charges_that_are_refused(rt: HostRuntime) -> Result<(), Fail> {
    let sheet = book(&[1, -1], &[(1, 2), (1, 2)])?;
    let costs = [
        Stepped::new(0, 0, &[3], &[1])?,
        Stepped::new(1, 7, &[2], &[-1])?,
    ];
    let cases: [([i64; 2], Refused); 9] = [
        ([0, 1], None),
        ([4, 1], Some((13, 1))),
        ([-1, 1], Some((13, 1))),
        ([0, 0], Some((13, 2))),
        ([0, 4], Some((13, 2))),
        ([0, 3], Some((14, 1))),
        ([i64::MAX, i64::MIN], Some((13, 1))),
        ([0, i64::MIN], Some((13, 2))),
        // where two conditions hold, the range is given
        ([3, 0], Some((13, 2))),
    ];
    for (loads, refused) in cases.iter().copied() {
        check_sheet(&rt, sheet.charge(&costs, &loads), refused);
    }
    // the opening amount counts at the lowest load too
    assert_eq!(rt; sheet.charge(&costs, &[0, 1])?, 7);
    let unmet = book(&[0, 1, -1], &[(2, 3)])?;
    check_sheet(&rt, unmet.charge(&costs[0..1], &[0]), Some((14, 2)));
    Ok(())
}

#[test]
fn floors_that_are_refused(rt: HostRuntime) -> Result<(), Fail> {
    let sheet = book(&[1, -1], &[(1, 2)])?;
    let costs = [Quadratic::new(4, 3, 2)?];
    let cases: [([i64; 2], Refused); 6] = [
        ([100_000_000, -100_000_000], None),
        ([100_000_001, 0], Some((3, 1))),
        ([0, 100_000_001], Some((3, 2))),
        ([0, -100_000_001], Some((3, 2))),
        ([i64::MIN, i64::MAX], Some((3, 1))),
        ([0, 0], None),
    ];
    for (prices, refused) in cases.iter().copied() {
        check_sheet(&rt, sheet.floor(&costs, &prices), refused);
    }
    Ok(())
}

#[test]
fn quadratic_and_layered(rt: HostRuntime) -> Result<(), Fail> {
    let sheet = book(&[1, -1], &[(1, 2)])?;
    let below = Quadratic::new(4, 3, 2)?;
    assert_eq!(rt; sheet.charge(&[below], &[1])?, 4);
    assert_eq!(rt; sheet.floor(&[below], &[4, 0])?, 4);
    let capped = Cap::new(below, 0)?;
    check_sheet(&rt, sheet.charge(&[capped], &[1]), Some((13, 1)));
    let ceiled = Ceiling::new(Cap::new(below, 1)?, 3)?;
    assert_eq!(rt; sheet.charge(&[ceiled], &[1])?, 3);
    assert_eq!(rt; Sheet::blank().charge(&[below][0..0], &[])?, 0);
    Ok(())
}
