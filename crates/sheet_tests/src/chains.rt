// Chains of calls: which accepted call came last, and what settle answers then.
use crate::checks::{book, check_stands};
use chain::calls::{Call, Kind};
use chain::replaying::{preview, replay};
use cost::refusals::Refusal;
use ledger::standing::Standing;
use std::process::Abort;
use std::test::Fail;
use stepped_cost::stepped::Stepped;

// On a book with supplies 1 and -1 and one arc: the kind of the call that is accepted last, how the book then stands, and by which
// number settle refuses it, if it does.
fn check_chain(
    rt: &impl Abort,
    costs: &mut [Stepped],
    calls: &[Call<Stepped>],
    last: Option<Kind>,
    standing: Standing,
    refused: Option<usize>,
) -> Result<(), Fail> {
    let mut sheet = book(&[1, -1], &[(1, 2)])?;
    let report = replay(&mut sheet, costs, calls);
    assert_eq!(rt; report.last, last);
    check_stands(rt, &sheet, standing);
    let number = report
        .outlook
        .err()
        .map(|fault| Refusal::from(fault).number);
    assert_eq!(rt; number, refused);
    Ok(())
}

#[test]
fn last_accepted(rt: HostRuntime) -> Result<(), Fail> {
    let narrow = Stepped::new(0, 0, &[3], &[1])?;
    let wide = Stepped::new(0, 0, &[9], &[1])?;
    let feed = Call::Supply { node: 1, amount: 5 };
    let drain = Call::Supply {
        node: 2,
        amount: -5,
    };
    let widen = Call::Swap { arc: 1, cost: wide };
    let unknown = Call::Swap { arc: 2, cost: wide };
    let cases: [(&[Call<Stepped>], Option<Kind>, Standing, Option<usize>); 7] = [
        // an empty chain
        (&[], None, Standing::Open, None),
        (&[Call::Settle], Some(Kind::Settle), Standing::Settled, None),
        // an edit opens the book again, a refused one does not
        (
            &[Call::Settle, feed],
            Some(Kind::Supply),
            Standing::Open,
            Some(10),
        ),
        (
            &[Call::Settle, unknown],
            Some(Kind::Settle),
            Standing::Settled,
            None,
        ),
        // unbalanced, then barred: neither is accepted
        (
            &[feed, Call::Settle],
            Some(Kind::Supply),
            Standing::Open,
            Some(10),
        ),
        (
            &[feed, drain, Call::Settle],
            Some(Kind::Supply),
            Standing::Barred,
            Some(11),
        ),
        (
            &[feed, drain, Call::Settle, widen, Call::Settle, unknown],
            Some(Kind::Settle),
            Standing::Settled,
            None,
        ),
    ];
    for (calls, last, standing, refused) in cases.iter().copied() {
        check_chain(&rt, &mut [narrow], calls, last, standing, refused)?;
    }
    Ok(())
}

#[test]
fn previews(rt: HostRuntime) -> Result<(), Fail> {
    let cost = Stepped::new(0, 2, &[3], &[4])?;
    let sheet = book(&[2, -2], &[(1, 2)])?;
    assert_eq!(rt; preview(&sheet, &[cost])?.charge, 10);
    check_stands(&rt, &sheet, Standing::Open);
    assert!(rt; preview(&sheet, &[cost, cost]).is_err());
    Ok(())
}
