// What the program answers to a record.
ghost use Rattle.std.specs.Iterator.{IsFinite};

use chain::calls::Call;
use chain::replaying::replay;
use cost::refusals::Refusal;
use cost::written::Recorded;
use ledger::faults::SheetFault;
use ledger::settling::Amounts;
use quadratic_cost::quadratic::Quadratic;
use record::faults::RecordFault;
use record::reading::read;
use sheet::sheets::{MOST_ARCS, Sheet};
use std::fmt;
use stepped_cost::stepped::Stepped;

// The longest record that is read.
pub(crate) const MOST_BYTES: usize = 65_536;

// Where the letter stands in a record: behind the word `net` and a space.
const LETTER_AT: usize = 4;

// The answer to a record: what its sheet comes to, or why it is refused.
#[derive(Drop)]
pub(crate) enum Answer {
    // the sheet has the loads
    Settled(Amounts, Sheet),
    // the sheet has the marks of a set that bars every routing
    Barred(Refusal, Sheet),
    // the line and the field of a record, 0 where the refusal names none
    Refused(Refusal, (usize, usize)),
}

// No line and no field of a record.
const NOWHERE: (usize, usize) = (0, 0);

// Writes the line of a refusal, with 0 for a line or a field that it does not name.
fn write_refused<W: fmt::Write>(
    f: &mut fmt::Formatter<W>,
    refusal: Refusal,
    (line, field): (usize, usize),
) -> fmt::Result {
    writeln!(f, "refused {refusal} {line} {field}")
}

// Writes a line of a word and numbers.
fn write_numbers<W: fmt::Write, I: Iterator<Item = i64> + Drop>(
    f: &mut fmt::Formatter<W>,
    word: &str,
    numbers: I,
) -> fmt::Result
    requires can { I.can_next numbers }
    requires finite { IsFinite (I.remaining numbers) }
{
    f.write_str(word)?;
    for number in numbers {
        write!(f, " {number}")?;
    }
    f.write_str("\n")
}

// Writes the line of the loads, by arc.
fn write_loads<W: fmt::Write>(f: &mut fmt::Formatter<W>, sheet: &Sheet) -> fmt::Result {
    let arcs = (1i64..).take(sheet.arc_count());
    write_numbers(f, "load", arcs.filter_map(|arc| sheet.load_of(arc).ok()))
}

// Writes the line of the marked nodes.
fn write_set<W: fmt::Write>(f: &mut fmt::Formatter<W>, sheet: &Sheet) -> fmt::Result {
    let nodes = (1i64..).take(sheet.node_count());
    write_numbers(
        f,
        "set",
        nodes.filter(|node| sheet.mark_of(*node).unwrap_or(false)),
    )
}

impl fmt::Display for Answer {
    // Writes the answer in one line or two.
    fn fmt<W: fmt::Write>(&self, f: &mut fmt::Formatter<W>) -> fmt::Result {
        match self {
            Answer::Settled(amounts, sheet) => {
                let Amounts { charge, floor } = *amounts;
                writeln!(f, "settled {charge} {floor}")?;
                write_loads(f, sheet)
            }
            Answer::Barred(refusal, sheet) => {
                write_refused(f, *refusal, NOWHERE)?;
                write_set(f, sheet)
            }
            Answer::Refused(refusal, place) => write_refused(f, *refusal, *place),
        }
    }
}

impl From<RecordFault> for Answer {
    // The refusal of a record, with the line and the field that it names.
    fn from(fault: RecordFault) -> Answer {
        Answer::Refused(Refusal::from(fault), fault.line_and_field())
    }
}

// The answer of a sheet after the calls, of which settle is the last.
fn settled<W: Recorded + Copy>(sheet: &mut Sheet, costs: &mut [W], calls: &[Call<W>]) -> Answer {
    match replay(sheet, costs, calls).outlook {
        Ok(amounts) => Answer::Settled(amounts, *sheet),
        Err(fault @ SheetFault::Barred(_)) => Answer::Barred(Refusal::from(fault), *sheet),
        Err(fault) => Answer::Refused(Refusal::from(fault), NOWHERE),
    }
}

// The answer to a record of one kind of cost, which is read into the places, after the calls on its book.
fn answer_with<W: Recorded + Copy>(text: &[u8], places: &mut [W], calls: &[Call<W>]) -> Answer {
    let mut sheet = Sheet::blank();
    match read(text, &mut sheet, places) {
        Ok(()) => {
            let arcs = sheet.arc_count().min(places.len());
            settled(&mut sheet, &mut places[0..arcs], calls)
        }
        Err(fault) => Answer::from(fault),
    }
}

// The letter of a record, which says the kind of its costs.
fn letter_of(text: &[u8]) -> Option<char> {
    text.get(LETTER_AT).map(|letter| char::from(*letter))
}

// The answer to a record, whose kind of cost its letter tells.
// The places stand here, since an array of a type parameter has no size that a proof knows.
fn answer_by_letter(text: &[u8]) -> Answer {
    match letter_of(text) {
        Some('Q') => answer_with(
            text,
            &mut [Quadratic::default(); MOST_ARCS],
            &[Call::Settle],
        ),
        _ => answer_with(text, &mut [Stepped::default(); MOST_ARCS], &[Call::Settle]),
    }
}

// The answer to a text, which may be too long to be read.
pub(crate) fn answer_to(text: &[u8]) -> Answer {
    if text.len() > MOST_BYTES {
        Answer::from(RecordFault::Form(MOST_BYTES))
    } else {
        answer_by_letter(text)
    }
}
