// Small networks, made at random, which the program keeps beside the sheet. Reckoned apart from the router, which it checks.
ghost use Rattle.std.specs.Prelude.{◌<◌, pos, ◌≤ℤ◌, IfOk, vec_len};

use crate::makers::Maker;
use ledger::faults::DraftFault;
use random::Random;
use sheet::sheets::Sheet;
use sheet::sheets::drafting::stages::begin;
use sheet::sheets::drafting::steps::size;
use std::alloc::AllocError;

// The supply of each node, and the tail and the head of each arc. Nodes have numbers from 1.
#[derive(Drop)]
pub(crate) struct Network {
    pub supplies: Vec<i64>,
    pub arcs: Vec<(i64, i64)>,
    ghost some_node: { 0 < vec_len supplies },
}

// Supplies that sum to 0, but for one time in eight.
fn random_supplies(maker: &mut Maker, nodes: i64) -> Result<Vec<i64>, AllocError>
    ensures { IfOk result (λ supplies. 0 < vec_len supplies) }
{
    let mut supplies = Vec::new(maker.heap);
    let mut sum = 0i64;
    for _ in 1..nodes {
        let supply = maker.random.between(-2, 2);
        sum = sum.wrapping_add(supply);
        supplies.push(supply)?;
    }
    let astray = (maker.random.between(0, 7) - 6).max(0);
    supplies.push(astray.wrapping_sub(sum))?;
    Ok(supplies)
}

// The ends of an arc between two nodes of several.
fn random_ends(random: &mut Random, nodes: i64) -> (i64, i64)
    requires several { pos 2 ≤ℤ nodes }
    requires few { nodes ≤ℤ pos 4 }
{
    let tail = random.between(1, nodes);
    let shift = random.between(1, nodes - 1);
    if tail + shift > nodes {
        (tail, tail + shift - nodes)
    } else {
        (tail, tail + shift)
    }
}

// Up to five arcs, and none where there is one node.
fn random_arcs(maker: &mut Maker, nodes: i64) -> Result<Vec<(i64, i64)>, AllocError>
    requires { nodes ≤ℤ pos 4 }
{
    let mut arcs = Vec::new(maker.heap);
    if nodes > 1 {
        let count = maker.random.place(6).max(maker.random.place(6));
        for _ in 0..count {
            arcs.push(random_ends(&mut maker.random, nodes))?;
        }
    }
    Ok(arcs)
}

impl Network {
    // Makes one to four nodes and up to five arcs.
    pub(crate) fn made(maker: &mut Maker) -> Result<Network, AllocError> {
        let nodes = maker.random.between(1, 4);
        let supplies = random_supplies(maker, nodes)?;
        let arcs = random_arcs(maker, nodes)?;
        Ok(Network { supplies, arcs })
    }

    // Drafts the network on a sheet.
    pub(crate) fn draft(&self, sheet: &mut Sheet) -> Result<(), DraftFault> {
        // usize has no From into i64; the proof shows that the cast keeps the number
        let mut feeding = begin(sheet, size(self.supplies.len() as i64)?);
        for supply in self.supplies.iter() {
            feeding.feed(*supply)?;
        }
        let mut laying = feeding.turn();
        for (tail, head) in self.arcs.iter() {
            laying.lay(*tail, *head)?;
        }
        laying.open();
        Ok(())
    }

    // The sum of the supplies.
    pub(crate) fn total(&self) -> i64 {
        self.supplies
            .iter()
            .fold(0i64, |total, supply| total.wrapping_add(*supply))
    }

    // The surplus of a node with a supply, under loads.
    fn surplus(&self, node: i64, supply: i64, loads: &[i64]) -> i64 {
        let mut surplus = supply;
        for ((tail, head), load) in self.arcs.iter().zip(loads) {
            if *head == node {
                surplus = surplus.wrapping_add(*load);
            }
            if *tail == node {
                surplus = surplus.wrapping_sub(*load);
            }
        }
        surplus
    }

    // Whether loads leave no surplus.
    pub(crate) fn is_met(&self, loads: &[i64]) -> bool {
        self.supplies
            .iter()
            .zip(1i64..)
            .all(|(supply, node)| self.surplus(node, *supply, loads) == 0)
    }
}
