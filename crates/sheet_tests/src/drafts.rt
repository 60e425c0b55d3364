// Drafts: sizes, feeding, laying, and what a sheet reads as meanwhile.
use crate::checks::{Refused, book, check_draft, check_sheet};
use ledger::standing::Standing;
use sheet::sheets::Sheet;
use sheet::sheets::drafting::stages::begin;
use sheet::sheets::drafting::steps::size;
use std::test::Fail;

#[test]
fn sizes(rt: HostRuntime) -> Result<(), Fail> {
    let cases: [(i64, Refused); 6] = [
        (0, None),
        (64, None),
        (65, Some((3, 1))),
        (-1, Some((3, 1))),
        (i64::MAX, Some((3, 1))),
        (i64::MIN, Some((3, 1))),
    ];
    for (count, refused) in cases.iter().copied() {
        check_draft(&rt, size(count), refused);
    }
    Ok(())
}

#[test]
fn feeding(rt: HostRuntime) -> Result<(), Fail> {
    let mut sheet = Sheet::blank();
    let mut feeding = begin(&mut sheet, size(4)?);
    let cases: [(i64, Refused); 9] = [
        (100_001, Some((3, 1))),
        (100_000, None),
        (-100_001, Some((3, 1))),
        (-100_000, None),
        (i64::MIN, Some((3, 1))),
        (2, None),
        (3, None),
        (4, Some((7, 4))),
        // where two conditions hold, the limit is given
        (i64::MAX, Some((3, 1))),
    ];
    for (supply, refused) in cases.iter().copied() {
        check_draft(&rt, feeding.feed(supply), refused);
    }
    let mut one = Sheet::blank();
    let mut alone = begin(&mut one, size(1)?);
    check_draft(&rt, alone.feed(2), None);
    check_draft(&rt, alone.feed(3), Some((7, 1)));
    Ok(())
}

#[test]
fn laying(rt: HostRuntime) -> Result<(), Fail> {
    let mut sheet = Sheet::blank();
    let mut laying = begin(&mut sheet, size(2)?).turn();
    let cases: [(i64, i64, Refused); 11] = [
        (1, 3, Some((8, 2))),
        (3, 1, Some((8, 1))),
        (0, 2, Some((8, 1))),
        (1, 0, Some((8, 2))),
        (i64::MIN, i64::MAX, Some((8, 1))),
        (1, i64::MAX, Some((8, 2))),
        (2, 2, Some((9, 1))),
        (1, 2, None),
        (1, 2, None),
        (1, 1, Some((9, 3))),
        // where two conditions hold, the unknown node is given
        (3, 3, Some((8, 1))),
    ];
    for (tail, head, refused) in cases.iter().copied() {
        check_draft(&rt, laying.lay(tail, head), refused);
    }
    for _ in 2..256 {
        check_draft(&rt, laying.lay(2, 1), None);
    }
    check_draft(&rt, laying.lay(2, 1), Some((7, 256)));
    // where two conditions hold, the full table is given
    check_draft(&rt, laying.lay(9, 9), Some((7, 256)));
    Ok(())
}

#[test]
fn until_it_is_opened_a_sheet_is_blank(rt: HostRuntime) -> Result<(), Fail> {
    let mut sheet = book(&[1, -1], &[(1, 2)])?;
    assert_eq!(rt; sheet.node_count(), 2);
    assert_eq!(rt; sheet.arc_count(), 1);
    assert_eq!(rt; sheet.ends_of(1)?, (1, 2));
    {
        let mut feeding = begin(&mut sheet, size(3)?);
        feeding.feed(7)?;
    }
    assert_eq!(rt; sheet.node_count(), 0);
    assert_eq!(rt; sheet.arc_count(), 0);
    assert_eq!(rt; sheet.stands(), Standing::Open);
    check_sheet(&rt, sheet.supply_of(1), Some((8, 1)));
    Ok(())
}

#[test]
fn supplies_that_are_not_fed_are_0(rt: HostRuntime) -> Result<(), Fail> {
    let mut sheet = Sheet::blank();
    let mut feeding = begin(&mut sheet, size(3)?);
    feeding.feed(-5)?;
    let mut laying = feeding.turn();
    laying.lay(3, 1)?;
    laying.open();
    assert_eq!(rt; sheet.supply_of(1)?, -5);
    assert_eq!(rt; sheet.supply_of(2)?, 0);
    assert_eq!(rt; sheet.supply_of(3)?, 0);
    assert_eq!(rt; sheet.ends_of(1)?, (3, 1));
    Ok(())
}
