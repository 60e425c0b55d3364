// Refusals from below, each with its line and its field, and the space for the costs.
use crate::checks::{
    at, check_all, check_refused, malformed, on, refused, untouched, untouched_square,
};
use cost::refusals::Layer;
use record::reading::read;
use sheet::sheets::Sheet;
use std::test::Fail;
use stepped_cost::stepped::Stepped;

#[test]
fn draft(rt: HostRuntime) -> Result<(), Fail> {
    let draft = Layer::Draft;
    check_all(
        &rt,
        &mut [untouched(); 3],
        &[
            refused(b"net S 2 0\nsup 100001 0\nx", 3, 1, draft, at(2, 2)),
            refused(b"net S 2 0\nsup 0 -100001\nx", 3, 1, draft, at(2, 3)),
            refused(
                b"net S 2 2\nsup 0 0\nfrom 3 1\nto 2 2\nx",
                8,
                1,
                draft,
                at(4, 2),
            ),
            refused(
                b"net S 2 2\nsup 0 0\nfrom 1 0\nto 2 2\nx",
                8,
                1,
                draft,
                at(4, 3),
            ),
            refused(
                b"net S 2 2\nsup 0 0\nfrom 1 1\nto 2 3\nx",
                8,
                2,
                draft,
                at(4, 3),
            ),
            refused(
                b"net S 2 2\nsup 0 0\nfrom 1 2\nto 2 2\nx",
                9,
                2,
                draft,
                at(4, 3),
            ),
        ],
    )
}

#[test]
fn stepped(rt: HostRuntime) -> Result<(), Fail> {
    let cost = Layer::Cost;
    check_all(
        &rt,
        &mut [untouched(); 3],
        &[
            refused(
                b"net S 2 1\nsup 0 0\nfrom 1\nto 2\nc 0 10001 0\nx",
                3,
                1,
                cost,
                on(5),
            ),
            refused(
                b"net S 2 1\nsup 0 0\nfrom 1\nto 2\nc 0 0 1000000001\nx",
                3,
                2,
                cost,
                on(5),
            ),
            refused(
                b"net S 2 1\nsup 0 0\nfrom 1\nto 2\nc 1 0 0 0 1\nx",
                3,
                3,
                cost,
                on(5),
            ),
            refused(
                b"net S 2 1\nsup 0 0\nfrom 1\nto 2\nc 1 0 0 1 1000001\nx",
                3,
                4,
                cost,
                on(5),
            ),
            refused(
                b"net S 2 1\nsup 0 0\nfrom 1\nto 2\nc 2 9999 0 1 1 0 0\nx",
                4,
                2,
                cost,
                on(5),
            ),
            refused(
                b"net S 2 1\nsup 0 0\nfrom 1\nto 2\nc 2 0 0 1 1 4 3\nx",
                5,
                2,
                cost,
                on(5),
            ),
        ],
    )
}

#[test]
fn quadratic(rt: HostRuntime) -> Result<(), Fail> {
    let cost = Layer::Cost;
    check_all(
        &rt,
        &mut [untouched_square(); 3],
        &[
            refused(
                b"net Q 2 1\nsup 0 0\nfrom 1\nto 2\nc 1000001 0 0\nx",
                3,
                1,
                cost,
                on(5),
            ),
            refused(
                b"net Q 2 1\nsup 0 0\nfrom 1\nto 2\nc 0 -1 0\nx",
                3,
                2,
                cost,
                on(5),
            ),
            refused(
                b"net Q 2 1\nsup 0 0\nfrom 1\nto 2\nc 0 0 10001\nx",
                3,
                3,
                cost,
                on(5),
            ),
            refused(
                b"net Q 2 1\nsup 0 0\nfrom 1\nto 2\nc 0 1000000 2\nx",
                6,
                0,
                cost,
                on(5),
            ),
        ],
    )
}

// Space is tested after the form of the first line, and before the second line.
#[test]
fn space(rt: HostRuntime) -> Result<(), Fail> {
    check_refused(&rt, &mut [untouched(); 3], malformed(b"net S 2 4", 9))?;
    check_refused(
        &rt,
        &mut [untouched(); 3],
        refused(b"net S 2 4\nx", 16, 4, Layer::Record, None),
    )?;
    check_refused(&rt, &mut [untouched(); 3], malformed(b"net S 2 3\nx", 10))
}

// The costs of earlier rows are filled; the place of the refused row and the later ones are as they were.
#[test]
fn earlier_rows_are_filled(rt: HostRuntime) -> Result<(), Fail> {
    let mut sheet = Sheet::blank();
    let mut places = [untouched(); 4];
    let text = b"net S 2 3\nsup 0 0\nfrom 1 1 1\nto 2 2 2\nc 0 5 6\nc 1 0 0 0 1\nc 0 0 0\n";
    assert!(rt; read(text, &mut sheet, &mut places).is_err());
    assert_eq!(rt; sheet.node_count(), 0);
    assert!(rt; places[0] == Stepped::new(5, 6, &[], &[])?);
    assert!(rt; places[1] == untouched() && places[2] == untouched() && places[3] == untouched());
    Ok(())
}
