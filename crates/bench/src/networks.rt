// Networks of two shapes, drafted at random.
ghost use Rattle.std.specs.Prelude.{◌≡◌, ◌<◌, ◌≤◌, length};

use ledger::faults::DraftFault;
use random::Random;
use sheet::sheets::Sheet;
use sheet::sheets::drafting::stages::begin;
use sheet::sheets::drafting::steps::size;
use std::alloc::{AllocError, Global};
use std::fmt;

// In how many shares the requests of a random network are supplied and taken.
const SHARES: i64 = 32;

// A ring with random chords across it, or a chain whose arcs are laid round after round from end to end.
#[derive(Clone, Copy)]
pub(crate) enum Shape {
    Ring,
    Chain,
}

// What a network is to have; it has two to 64 nodes.
#[derive(Clone, Copy)]
pub(crate) struct Plan {
    pub shape: Shape,
    pub nodes: usize,
    pub arcs: usize,
    pub requests: i64,
    ghost several: { 1 < nodes },
    ghost few: { nodes ≤ 64 },
}

impl fmt::Display for Shape {
    fn fmt<W: fmt::Write>(&self, f: &mut fmt::Formatter<W>) -> fmt::Result {
        f.write_str(match self {
            Shape::Ring => "ring",
            Shape::Chain => "chain",
        })
    }
}

// Adds requests to supplies in shares, each from one random node to another.
fn spread(supplies: &mut [i64], requests: i64, random: &mut Random)
    requires { 0 < length supplies.old }
{
    let share = requests / SHARES;
    for _ in 0..SHARES {
        let from = random.place(supplies.len());
        let to = random.place(supplies.len());
        supplies[from] = supplies[from].wrapping_add(share);
        supplies[to] = supplies[to].wrapping_sub(share);
    }
}

impl Plan {
    // The plan of a network with two to 64 nodes.
    pub(crate) fn new(shape: Shape, nodes: usize, arcs: usize, requests: i64) -> Plan
        requires several { 1 < nodes }
        requires few { nodes ≤ 64 }
        ensures nodes { result.nodes ≡ nodes }
        ensures arcs { result.arcs ≡ arcs }
    {
        Plan {
            shape,
            nodes,
            arcs,
            requests,
        }
    }

    // The arcs of the ring and of the chain are wide, so that there is a routing.
    pub(crate) fn is_wide(self, arc: usize) -> bool {
        match self.shape {
            Shape::Ring => arc < self.nodes,
            Shape::Chain => true,
        }
    }

    // The places of the tail and the head of an arc.
    fn ends(self, arc: usize, random: &mut Random) -> (usize, usize)
        ensures tail { result.0 < self.nodes }
        ensures head { result.1 < self.nodes }
    {
        match self.shape {
            Shape::Chain => (arc % (self.nodes - 1), arc % (self.nodes - 1) + 1),
            Shape::Ring if arc < self.nodes => (arc, (arc + 1) % self.nodes),
            Shape::Ring => {
                let tail = random.place(self.nodes);
                (tail, (tail + 1 + random.place(self.nodes - 1)) % self.nodes)
            }
        }
    }

    // The supplies: along a chain all requests go from end to end, and on a ring they go in shares between random nodes.
    // The heap is a handle that each function that allocates names.
    pub(crate) fn supplies(
        self,
        heap: Global,
        random: &mut Random,
    ) -> Result<Vec<i64>, AllocError> {
        let mut supplies = vec![in heap; 0i64; self.nodes]?;
        match self.shape {
            Shape::Chain => {
                supplies[0] = self.requests;
                supplies[self.nodes - 1] = self.requests.wrapping_neg();
            }
            Shape::Ring => spread(supplies.as_mut_slice(), self.requests, random),
        }
        Ok(supplies)
    }

    // Drafts the network with supplies on a sheet.
    pub(crate) fn draft(
        self,
        supplies: &[i64],
        random: &mut Random,
        sheet: &mut Sheet,
    ) -> Result<(), DraftFault> {
        // usize has no From into i64; the proof shows that the casts keep the numbers
        let mut feeding = begin(sheet, size(self.nodes as i64)?);
        for supply in supplies {
            feeding.feed(*supply)?;
        }
        let mut laying = feeding.turn();
        for arc in 0..self.arcs {
            let (tail, head) = self.ends(arc, random);
            laying.lay(tail as i64 + 1, head as i64 + 1)?;
        }
        laying.open();
        Ok(())
    }
}
