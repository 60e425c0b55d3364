// What the tables of records are held to.
use cost::refusals::{Layer, Refusal};
use cost::written::Recorded;
use quadratic_cost::quadratic::Quadratic;
use record::faults::Spot;
use record::reading::read;
use sheet::sheets::Sheet;
use std::process::Abort;
use std::test::Fail;
use stepped_cost::stepped::Stepped;

// A text and its whole refusal.
#[derive(Clone, Copy)]
pub(crate) struct Case<'a> {
    pub text: &'a [u8],
    pub refusal: Refusal,
    pub spot: Option<Spot>,
}

// A text that is not of the form from an offset on.
pub(crate) const fn malformed<'a>(text: &'a [u8], offset: usize) -> Case<'a> {
    Case {
        text,
        refusal: Refusal {
            number: 15,
            place: offset,
            layer: Layer::Record,
        },
        spot: None,
    }
}

// A text that a layer below refuses.
pub(crate) const fn refused<'a>(
    text: &'a [u8],
    number: usize,
    place: usize,
    layer: Layer,
    spot: Option<Spot>,
) -> Case<'a> {
    Case {
        text,
        refusal: Refusal {
            number,
            place,
            layer,
        },
        spot,
    }
}

// A field of a line.
pub(crate) const fn at(line: usize, field: usize) -> Option<Spot> {
    Some(Spot {
        line,
        field: Some(field),
    })
}

// A whole line.
pub(crate) const fn on(line: usize) -> Option<Spot> {
    Some(Spot { line, field: None })
}

// A cost whose row is of no record in the tables.
pub(crate) const fn untouched() -> Stepped {
    Stepped {
        first: 77,
        opening: 0,
        count: 0,
        widths: [0; 8],
        slopes: [0; 8],
    }
}

pub(crate) const fn untouched_square() -> Quadratic {
    Quadratic { a: 77, b: 0, c: 0 }
}

// The text is refused as the case says; the sheet, which held a book before, is then blank.
pub(crate) fn check_refused<W: Recorded + Copy>(
    rt: &impl Abort,
    places: &mut [W],
    case: Case,
) -> Result<(), Fail> {
    let mut sheet = Sheet::blank();
    let mut one = [untouched()];
    let before = read(b"net S 1 0\nsup 5\nfrom\nto\n", &mut sheet, &mut one);
    assert!(rt; before.is_ok() && sheet.node_count() == 1);
    let Err(fault) = read(case.text, &mut sheet, places) else {
        return Err(Fail::new("it was read"));
    };
    assert_eq!(rt; Refusal::from(fault), case.refusal);
    assert_eq!(rt; fault.spot(), case.spot);
    assert!(rt; sheet.node_count() == 0 && sheet.arc_count() == 0);
    Ok(())
}

pub(crate) fn check_all<W: Recorded + Copy>(
    rt: &impl Abort,
    places: &mut [W],
    cases: &[Case],
) -> Result<(), Fail> {
    for case in cases {
        check_refused(rt, places, *case)?;
    }
    Ok(())
}
