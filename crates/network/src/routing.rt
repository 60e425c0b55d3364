// Whether loads are a routing, and whether they meet the network.
ghost use Rattle.std.specs.Prelude.{◌≡◌, ◌<◌, [], map, length, pos, negsuc, ◌-ℤ◌, ◌==◌};
ghost use Rattle.cost.specs.Meaning.{Between};
ghost use Rattle.network.specs.Sums.{counted};
ghost use Rattle.network.specs.Network.{surplus};
ghost use Rattle.network.specs.Graphs.{net_in};
ghost use Rattle.network.specs.Records.{numbers, Within, out_of_range, unmet};

use crate::graph::Graph;
use crate::records::Arc;
use cost::costs::{Cost, in_range};

// The place, from 1, of the first arc whose load lies outside the range of its cost.
pub fn first_out_of_range<C: Cost>(costs: &[C], loads: &[i64]) -> Option<usize>
    requires { length loads.now ≡ length costs.now }
    ensures { result ≡ out_of_range (map C.Cost.meaning costs.now) loads.now }
{
    let arc = costs
        .iter()
        .zip(loads)
        .position(|(cost, load)| !in_range(cost, *load))?;
    Some(arc + 1)
}

impl Arc {
    // What a load on this arc adds to the surplus of a node: it enters at the head and leaves at the tail.
    fn gain(&self, load: i64, node: usize) -> i64
        requires { Between (negsuc 9999) (pos 10000) load }
        ensures { result ≡ counted (self.now.head == node) load -ℤ counted (self.now.tail == node) load }
    {
        let entering = if self.head == node { load } else { 0 };
        let leaving = if self.tail == node { load } else { 0 };
        entering - leaving
    }
}

// Loads and prices are lists of the caller's, so each call asks that they are as long as the arcs or the nodes.
impl Graph<'_> {
    // The supply of a node and the loads that enter it, less the loads that leave it. No cost enters into it.
    pub fn surplus_at(&self, loads: &[i64], node: usize) -> i64
        requires loaded { length loads.now ≡ length self.now.arcs.now }
        requires limits { Within 10000 loads.now }
        requires place { node < length self.now.nodes.now }
        ensures { result ≡ surplus (net_in self.now []) (numbers loads.now) node }
    {
        let mut surplus = self.nodes[node].supply;
        for (arc, load) in self.arcs.iter().zip(loads) {
            surplus += arc.gain(*load, node);
        }
        surplus
    }

    // The place, from 1, of the first node whose surplus is not 0.
    pub fn first_unmet(&self, loads: &[i64]) -> Option<usize>
        requires loaded { length loads.now ≡ length self.now.arcs.now }
        requires limits { Within 10000 loads.now }
        ensures { result ≡ unmet (net_in self.now []) (numbers loads.now) }
    {
        // A surplus is asked by the number of its node, so nodes are counted.
        for node in 0..self.nodes.len() {
            if self.surplus_at(loads, node) != 0 {
                return Some(node + 1);
            }
        }
        None
    }
}
