// What the calls of the draft and of the sheet refuse.
ghost use Rattle.std.specs.Prelude.{◌≡◌, ◌++◌, Some, codes};
ghost use Rattle.cost.specs.Refusals.{refusal_text};
ghost use Rattle.ledger.specs.Faults.{draft_refusal, sheet_refusal};
ghost use Rattle.ledger.specs.declared.faults.DraftFault.TheVariants as draft;
ghost use Rattle.ledger.specs.declared.faults.SheetFault.TheVariants as sheet;

use cost::numbers::NumberFault;
use cost::refusals::{Layer, Refusal};
use std::error::Error;
use std::fmt;

// Why a step of the draft is refused.
#[derive(Clone, Copy, Debug, PartialEq, Eq)]
pub enum DraftFault {
    Number(NumberFault),
    // after the last node, or after arc 256: how many there are
    Full(usize),
    // the position of a node's number that is not in the sheet
    Unknown(usize),
    // the arc whose tail would be its head
    Loop(usize),
}

// Why a call on a sheet is refused.
#[derive(Clone, Copy, Debug, PartialEq, Eq)]
pub enum SheetFault {
    // another number of costs, loads or prices than the sheet has arcs or nodes
    List,
    Number(NumberFault),
    // the position of a node's or an arc's number that is not in the sheet
    Unknown(usize),
    // supplies that do not sum to 0
    Unbalanced,
    // no routing meets the network: how many nodes are marked
    Barred(usize),
    // a load, a price or a mark that the standing does not let be read
    Unread,
    // the arc whose load lies outside its range
    Range(usize),
    // the node whose surplus is not 0
    Surplus(usize),
}

impl From<NumberFault> for DraftFault {
    ghost from_gives = { λ fault r. r ≡ draft.Number fault };

    fn from(fault: NumberFault) -> DraftFault {
        DraftFault::Number(fault)
    }
}

impl From<NumberFault> for SheetFault {
    ghost from_gives = { λ fault r. r ≡ sheet.Number fault };

    fn from(fault: NumberFault) -> SheetFault {
        SheetFault::Number(fault)
    }
}

impl From<DraftFault> for Refusal {
    ghost from_gives = { λ fault r. r ≡ draft_refusal fault };

    // Reports a fault of a draft by its number, its place and the layer of drafts.
    fn from(fault: DraftFault) -> Refusal {
        let (number, place) = match fault {
            DraftFault::Number(NumberFault::Outside(position)) => (3, position),
            DraftFault::Full(count) => (7, count),
            DraftFault::Unknown(position) => (8, position),
            DraftFault::Loop(arc) => (9, arc),
        };
        Refusal {
            number,
            place,
            layer: Layer::Draft,
        }
    }
}

impl From<SheetFault> for Refusal {
    ghost from_gives = { λ fault r. r ≡ sheet_refusal fault };

    // Reports a fault of a call on a sheet by its number, its place and the layer of sheets.
    fn from(fault: SheetFault) -> Refusal {
        let (number, place) = match fault {
            SheetFault::List => (2, 0),
            SheetFault::Number(NumberFault::Outside(position)) => (3, position),
            SheetFault::Unknown(position) => (8, position),
            SheetFault::Unbalanced => (10, 0),
            SheetFault::Barred(count) => (11, count),
            SheetFault::Unread => (12, 0),
            SheetFault::Range(arc) => (13, arc),
            SheetFault::Surplus(node) => (14, node),
        };
        Refusal {
            number,
            place,
            layer: Layer::Sheet,
        }
    }
}

// Display is the library's, so no one impl serves all faults.
impl fmt::Display for DraftFault {
    ghost output = { λ fault. Some (codes "a draft is refused: " ++ refusal_text (draft_refusal fault)) };

    // Writes the refusal, for a program that passes the fault on.
    fn fmt<W: fmt::Write>(&self, f: &mut fmt::Formatter<W>) -> fmt::Result {
        write!(f, "a draft is refused: {}", Refusal::from(*self))
    }
}

impl Error for DraftFault {}

impl fmt::Display for SheetFault {
    ghost output = { λ fault. Some (codes "a call on a sheet is refused: " ++ refusal_text (sheet_refusal fault)) };

    // Writes the refusal, for a program that passes the fault on.
    fn fmt<W: fmt::Write>(&self, f: &mut fmt::Formatter<W>) -> fmt::Result {
        write!(f, "a call on a sheet is refused: {}", Refusal::from(*self))
    }
}

impl Error for SheetFault {}
