// Settling: its refusals and their order, what it leaves, and what may be read then.
use crate::checks::{book, check_loads, check_settles, check_sheet, check_stands, check_unsettled};
use layered_cost::layers::Cap;
use ledger::standing::Standing;
use quadratic_cost::quadratic::Quadratic;
use sheet::sheets::Sheet;
use std::array;
use std::test::Fail;
use stepped_cost::stepped::Stepped;

#[test]
fn three_arcs(rt: HostRuntime) -> Result<(), Fail> {
    let mut sheet = book(&[4, 0, -4], &[(1, 2), (2, 3), (1, 3)])?;
    let costs = [
        Stepped::new(0, 0, &[4], &[1])?,
        Stepped::new(0, 0, &[4], &[2])?,
        Stepped::new(0, 0, &[2, 2], &[2, 5])?,
    ];
    check_settles(&rt, &mut sheet, &costs, 10)?;
    check_loads(&rt, &sheet, &[2, 2, 2])?;
    check_sheet(&rt, sheet.mark_of(1), Some((12, 0)));
    // settling again, and after an edit that puts the same supply
    check_settles(&rt, &mut sheet, &costs, 10)?;
    check_sheet(&rt, sheet.supply(1, 4), None);
    check_stands(&rt, &sheet, Standing::Open);
    check_sheet(&rt, sheet.load_of(1), Some((12, 0)));
    check_settles(&rt, &mut sheet, &costs, 10)
}

#[test]
fn refusals(rt: HostRuntime) -> Result<(), Fail> {
    let mut sheet = book(&[5, -4], &[(1, 2), (1, 2)])?;
    let three = Stepped::new(0, 0, &[3], &[1])?;
    let one = Stepped::new(0, 0, &[1], &[1])?;
    // another number of costs, with supplies that do not sum to 0 too
    check_unsettled(&rt, &mut sheet, &[three], (2, 0));
    check_unsettled(&rt, &mut sheet, &[three, three, three], (2, 0));
    check_unsettled(&rt, &mut sheet, &[one, one], (10, 0));
    check_stands(&rt, &sheet, Standing::Open);
    check_sheet(&rt, sheet.supply(2, -5), None);
    // barred: node 1 is marked
    check_unsettled(&rt, &mut sheet, &[three, one], (11, 1));
    check_stands(&rt, &sheet, Standing::Barred);
    assert_eq!(rt; sheet.mark_of(1)?, true);
    assert_eq!(rt; sheet.mark_of(2)?, false);
    check_sheet(&rt, sheet.load_of(1), Some((12, 0)));
    // a refusal of another kind leaves the marks, and enough room settles
    check_unsettled(&rt, &mut sheet, &[three], (2, 0));
    check_stands(&rt, &sheet, Standing::Barred);
    check_settles(&rt, &mut sheet, &[three, three], 5)
}

#[test]
fn no_arcs(rt: HostRuntime) -> Result<(), Fail> {
    let none: [Quadratic; 0] = [];
    check_settles(&rt, &mut Sheet::blank(), &none, 0)?;
    check_settles(&rt, &mut book(&[0, 0], &[])?, &none, 0)?;
    check_unsettled(&rt, &mut book(&[1, -1], &[])?, &none, (11, 1));
    check_unsettled(&rt, &mut book(&[1, 0], &[])?, &none, (10, 0));
    Ok(())
}

#[test]
fn little_networks(rt: HostRuntime) -> Result<(), Fail> {
    // a first load that nothing takes away
    let forced = Stepped::new(2, 0, &[], &[])?;
    check_unsettled(&rt, &mut book(&[0, 0], &[(2, 1)])?, &[forced], (11, 1));
    // a ring of negative increments is filled
    let pays = Stepped::new(0, 0, &[3], &[-2])?;
    let takes = Stepped::new(0, 0, &[9], &[1])?;
    check_settles(
        &rt,
        &mut book(&[0, 0], &[(1, 2), (2, 1)])?,
        &[pays, takes],
        -3,
    )?;
    // a cap over a quadratic cost moves the rest to the other arc
    let square = Quadratic::new(0, 1, 10)?;
    let mut sheet = book(&[4, -4], &[(1, 2), (1, 2)])?;
    check_settles(
        &rt,
        &mut sheet,
        &[Cap::new(square, 1)?, Cap::new(square, 10)?],
        6,
    )?;
    check_loads(&rt, &sheet, &[1, 3])
}

// 64 nodes, each joined to the four after it, round and round.
#[test]
fn largest_network(rt: HostRuntime) -> Result<(), Fail> {
    let mut supplies = [5; 64];
    supplies[63] = -315;
    let arcs: [(i64, i64); 256] = array::from_fn(|a| {
        let from = a / 4;
        let to = from + a % 4 + 1;
        (from as i64 + 1, (to % 64) as i64 + 1)
    });
    let cost = Stepped::new(0, 1, &[100, 300], &[1, 3])?;
    let mut sheet = book(&supplies, &arcs)?;
    sheet.settle(&[cost; 256])?;
    check_stands(&rt, &sheet, Standing::Settled);
    Ok(())
}
