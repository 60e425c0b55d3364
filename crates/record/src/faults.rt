// What reading and writing a record refuse.
ghost use Rattle.std.specs.Prelude.{◌≡◌, ◌++◌, Some, codes};
ghost use Rattle.cost.specs.Refusals.{refusal_text};
ghost use Rattle.record.specs.Faults.{line_and_field, record_refusal, record_spot, writing_refusal};
ghost use Rattle.record.specs.declared.faults.RecordFault.TheVariants.{Form};

use cost::refusals::{CostFault, Layer, Refusal};
use ledger::faults::DraftFault;
use std::error::Error;
use std::fmt;
use text::cursor::Malformed;

// A line of a text, from 1, and the field of it, from 1, if the refusal is of one field alone.
#[derive(Clone, Copy, Debug, PartialEq, Eq)]
pub struct Spot {
    pub line: usize,
    pub field: Option<usize>,
}

// Why a text is refused.
#[derive(Clone, Copy, Debug, PartialEq, Eq)]
pub enum RecordFault {
    // the offset of the first byte that is not of the form
    Form(usize),
    // how many cost places are needed
    Space(usize),
    Draft(DraftFault, Spot),
    Cost(CostFault, Spot),
}

// Why a record is not written.
#[derive(Clone, Copy, Debug, PartialEq, Eq)]
pub enum WritingFault {
    // another number of costs than the sheet has arcs
    List,
    // how many bytes are needed
    Space(usize),
}

impl From<Malformed> for RecordFault {
    ghost from_gives = { λ malformed r. r ≡ Form malformed.offset };

    fn from(malformed: Malformed) -> RecordFault {
        RecordFault::Form(malformed.offset)
    }
}

impl From<RecordFault> for Refusal {
    ghost from_gives = { λ fault r. r ≡ record_refusal fault };

    // Reports the form and the space as refusals of the record, and what was met below as it stands.
    fn from(fault: RecordFault) -> Refusal {
        let (number, place) = match fault {
            RecordFault::Form(offset) => (15, offset),
            RecordFault::Space(needed) => (16, needed),
            RecordFault::Draft(below, _) => return Refusal::from(below),
            RecordFault::Cost(below, _) => return Refusal::from(below),
        };
        Refusal {
            number,
            place,
            layer: Layer::Record,
        }
    }
}

impl From<WritingFault> for Refusal {
    ghost from_gives = { λ fault r. r ≡ writing_refusal fault };

    // Reports a fault of writing by its number, its place and the layer of records.
    fn from(fault: WritingFault) -> Refusal {
        let (number, place) = match fault {
            WritingFault::List => (2, 0),
            WritingFault::Space(needed) => (16, needed),
        };
        Refusal {
            number,
            place,
            layer: Layer::Record,
        }
    }
}

impl RecordFault {
    // The line and the field that a refusal from below was met at; a refusal of the record itself names none.
    pub fn spot(self) -> Option<Spot>
        ensures { result ≡ record_spot self }
    {
        match self {
            RecordFault::Form(_) | RecordFault::Space(_) => None,
            RecordFault::Draft(_, spot) | RecordFault::Cost(_, spot) => Some(spot),
        }
    }

    // The line and the field as a program prints them, with 0 for what the refusal does not name: form and space name
    // neither, and a cost no field.
    pub fn line_and_field(self) -> (usize, usize)
        ensures { result ≡ line_and_field self }
    {
        match self.spot() {
            Some(spot) => (spot.line, spot.field.unwrap_or(0)),
            None => (0, 0),
        }
    }
}

// Display is the library's, so no one impl serves all faults.
impl fmt::Display for RecordFault {
    ghost output = { λ fault. Some (codes "a record is refused: " ++ refusal_text (record_refusal fault)) };

    // Writes the refusal, for a program that passes the fault on.
    fn fmt<W: fmt::Write>(&self, f: &mut fmt::Formatter<W>) -> fmt::Result {
        write!(f, "a record is refused: {}", Refusal::from(*self))
    }
}

impl Error for RecordFault {}

impl fmt::Display for WritingFault {
    ghost output = { λ fault. Some (codes "a record is not written: " ++ refusal_text (writing_refusal fault)) };

    // Writes the refusal, for a program that passes the fault on.
    fn fmt<W: fmt::Write>(&self, f: &mut fmt::Formatter<W>) -> fmt::Result {
        write!(f, "a record is not written: {}", Refusal::from(*self))
    }
}

impl Error for WritingFault {}
