// What a refused call answers: a fault of its own, and from it the number, the place and the layer.
ghost use Rattle.std.specs.Prelude.{◌≡◌, ◌++◌, Some, codes};
ghost use Rattle.cost.specs.Refusals.{cost_refusal, layer_word, refusal_text};
ghost use Rattle.cost.specs.declared.refusals.CostFault.TheVariants.{Number};

use crate::numbers::NumberFault;
use std::error::Error;
use std::fmt;

// Where a refusal was made.
#[derive(Clone, Copy, Debug, PartialEq, Eq)]
pub enum Layer {
    Cost,
    Draft,
    Sheet,
    Record,
}

impl fmt::Display for Layer {
    ghost output = { λ layer. Some (layer_word layer) };

    // Writes the layer in one word.
    fn fmt<W: fmt::Write>(&self, f: &mut fmt::Formatter<W>) -> fmt::Result {
        f.write_str(match self {
            Layer::Cost => "cost",
            Layer::Draft => "draft",
            Layer::Sheet => "sheet",
            Layer::Record => "record",
        })
    }
}

// A refusal as it is reported: its number in the table of refusals, the place that it names, its layer.
// A refusal is reported as numbers, as the table of refusals has them; 0 stands where it names no place.
#[derive(Clone, Copy, Debug, PartialEq, Eq)]
pub struct Refusal {
    pub number: usize,
    pub place: usize,
    pub layer: Layer,
}

impl fmt::Display for Refusal {
    ghost output = { λ refusal. Some (refusal_text refusal) };

    // Writes the number, the place and the layer, parted by spaces.
    fn fmt<W: fmt::Write>(&self, f: &mut fmt::Formatter<W>) -> fmt::Result {
        write!(f, "{} {} {}", self.number, self.place, self.layer)
    }
}

// Why a cost is not made.
#[derive(Clone, Copy, Debug, PartialEq, Eq)]
pub enum CostFault {
    Pieces,
    Number(NumberFault),
    Long(usize),
    Falls(usize),
    Steep,
}

impl From<NumberFault> for CostFault {
    ghost from_gives = { λ fault r. r ≡ Number fault };

    fn from(fault: NumberFault) -> CostFault {
        CostFault::Number(fault)
    }
}

impl From<CostFault> for Refusal {
    ghost from_gives = { λ fault r. r ≡ cost_refusal fault };

    // Reports a fault of a cost by its number, its place and the layer of costs.
    fn from(fault: CostFault) -> Refusal {
        let (number, place) = match fault {
            CostFault::Pieces => (1, 0),
            CostFault::Number(NumberFault::Outside(position)) => (3, position),
            CostFault::Long(piece) => (4, piece),
            CostFault::Falls(piece) => (5, piece),
            CostFault::Steep => (6, 0),
        };
        Refusal {
            number,
            place,
            layer: Layer::Cost,
        }
    }
}

// Display is the library's, so no one impl serves all faults.
impl fmt::Display for CostFault {
    ghost output = { λ fault. Some (codes "a cost is refused: " ++ refusal_text (cost_refusal fault)) };

    // Writes the refusal, for a program that passes the fault on.
    fn fmt<W: fmt::Write>(&self, f: &mut fmt::Formatter<W>) -> fmt::Result {
        write!(f, "a cost is refused: {}", Refusal::from(*self))
    }
}

impl Error for CostFault {}
