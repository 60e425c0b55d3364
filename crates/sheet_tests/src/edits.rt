// Edits and look-ups.
use crate::checks::{Refused, book, check_sheet};
use ledger::standing::Standing;
use quadratic_cost::quadratic::Quadratic;
use std::test::Fail;

#[test]
fn supplies(rt: HostRuntime) -> Result<(), Fail> {
    let mut sheet = book(&[1, -1], &[(1, 2)])?;
    let cases: [(i64, i64, Refused); 9] = [
        (1, 100_000, None),
        (2, -100_000, None),
        (1, 100_001, Some((3, 2))),
        (1, i64::MIN, Some((3, 2))),
        (0, 5, Some((8, 1))),
        (3, 5, Some((8, 1))),
        (i64::MIN, 5, Some((8, 1))),
        // where two conditions hold, the limit is given
        (i64::MAX, i64::MAX, Some((3, 2))),
        (2, -100_000, None),
    ];
    for (node, amount, refused) in cases.iter().copied() {
        check_sheet(&rt, sheet.supply(node, amount), refused);
    }
    assert_eq!(rt; sheet.supply_of(1)?, 100_000);
    assert_eq!(rt; sheet.supply_of(2)?, -100_000);
    assert_eq!(rt; sheet.stands(), Standing::Open);
    Ok(())
}

#[test]
fn swaps(rt: HostRuntime) -> Result<(), Fail> {
    let mut sheet = book(&[1, -1], &[(1, 2), (2, 1)])?;
    let old = Quadratic::new(4, 3, 2)?;
    let new = Quadratic::new(1, 0, 9)?;
    let mut costs = [old, old];
    check_sheet(&rt, sheet.swap(2, new, &mut costs[0..1]), Some((2, 0)));
    check_sheet(&rt, sheet.swap(0, new, &mut costs), Some((8, 1)));
    check_sheet(&rt, sheet.swap(3, new, &mut costs), Some((8, 1)));
    check_sheet(&rt, sheet.swap(i64::MIN, new, &mut costs), Some((8, 1)));
    assert!(rt; costs[0] == old && costs[1] == old);
    check_sheet(&rt, sheet.swap(2, new, &mut costs), None);
    assert!(rt; costs[0] == old && costs[1] == new);
    Ok(())
}

#[test]
fn look_ups(rt: HostRuntime) -> Result<(), Fail> {
    let sheet = book(&[1, -1], &[(1, 2)])?;
    check_sheet(&rt, sheet.supply_of(3), Some((8, 1)));
    check_sheet(&rt, sheet.ends_of(2), Some((8, 1)));
    check_sheet(&rt, sheet.ends_of(0), Some((8, 1)));
    // loads and prices before they are settled, marks while nothing is barred
    check_sheet(&rt, sheet.load_of(1), Some((12, 0)));
    check_sheet(&rt, sheet.price_of(2), Some((12, 0)));
    check_sheet(&rt, sheet.mark_of(1), Some((12, 0)));
    // where two conditions hold, the unknown number is given
    check_sheet(&rt, sheet.load_of(2), Some((8, 1)));
    check_sheet(&rt, sheet.price_of(i64::MAX), Some((8, 1)));
    check_sheet(&rt, sheet.mark_of(0), Some((8, 1)));
    Ok(())
}
