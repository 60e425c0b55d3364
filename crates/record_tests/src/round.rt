// Records that are read, written and read again.
use crate::checks::{untouched, untouched_square};
use cost::refusals::{Layer, Refusal};
use cost::written::Recorded;
use ledger::standing::Standing;
use quadratic_cost::quadratic::Quadratic;
use record::faults::WritingFault;
use record::reading::read;
use record::writing::write;
use sheet::sheets::Sheet;
use std::process::Abort;
use std::test::Fail;
use stepped_cost::stepped::Stepped;

const EXAMPLE: &[u8] =
    b"net S 3 3\nsup 4 0 -4\nfrom 1 2 1\nto 2 3 3\nc 1 0 0 4 1\nc 1 0 0 4 2\nc 2 0 0 2 2 2 5\n";

// A text that is accepted is what is written again, and the bytes past it are as they were.
fn check_rewritten<W: Recorded>(
    rt: &impl Abort,
    text: &[u8],
    sheet: &Sheet,
    costs: &[W],
) -> Result<(), Fail> {
    let mut bytes = [b'#'; 200];
    let length = write(sheet, costs, &mut bytes)?;
    assert!(rt; length == text.len() && length < bytes.len());
    assert!(rt; &bytes[0..length] == text);
    assert!(rt; bytes[length] == b'#');
    Ok(())
}

#[test]
fn the_example_is_read_and_written(rt: HostRuntime) -> Result<(), Fail> {
    let mut sheet = Sheet::blank();
    let mut places = [untouched(); 4];
    read(EXAMPLE, &mut sheet, &mut places)?;
    assert_eq!(rt; sheet.stands(), Standing::Open);
    assert!(rt; sheet.node_count() == 3 && sheet.arc_count() == 3);
    assert_eq!(rt; sheet.supply_of(3)?, -4);
    assert_eq!(rt; sheet.ends_of(2)?, (2, 3));
    assert!(rt; places[2] == Stepped::new(0, 0, &[2, 2], &[2, 5])?);
    assert!(rt; places[3] == untouched());
    check_rewritten(&rt, EXAMPLE, &sheet, &places[0..3])
}

#[test]
fn a_quadratic_record_is_read_and_written(rt: HostRuntime) -> Result<(), Fail> {
    let text = b"net Q 2 1\nsup 1 -1\nfrom 1\nto 2\nc 4 3 2\n";
    let mut sheet = Sheet::blank();
    let mut places = [untouched_square()];
    read(text, &mut sheet, &mut places)?;
    assert!(rt; places[0] == Quadratic::new(4, 3, 2)?);
    check_rewritten(&rt, text, &sheet, &places)
}

#[test]
fn the_blank_sheet_is_written(rt: HostRuntime) -> Result<(), Fail> {
    let none: [Stepped; 0] = [];
    check_rewritten(&rt, b"net S 0 0\nsup\nfrom\nto\n", &Sheet::blank(), &none)
}

fn check_unwritten(
    rt: &impl Abort,
    answer: Result<usize, WritingFault>,
    refusal: Refusal,
) -> Result<(), Fail> {
    let Err(fault) = answer else {
        return Err(Fail::new("it was written"));
    };
    assert_eq!(rt; Refusal::from(fault), refusal);
    Ok(())
}

// Another number of costs is refused first, and then too little room; the bytes are as they were.
#[test]
fn writing_refuses(rt: HostRuntime) -> Result<(), Fail> {
    let mut sheet = Sheet::blank();
    let mut places = [untouched(); 3];
    read(EXAMPLE, &mut sheet, &mut places)?;
    let mut bytes = [b'#'; 20];
    let list = Refusal {
        number: 2,
        place: 0,
        layer: Layer::Record,
    };
    check_unwritten(&rt, write(&sheet, &places[0..2], &mut bytes), list)?;
    let space = Refusal {
        number: 16,
        place: EXAMPLE.len(),
        layer: Layer::Record,
    };
    check_unwritten(&rt, write(&sheet, &places, &mut bytes), space)?;
    assert!(rt; bytes == [b'#'; 20]);
    Ok(())
}
