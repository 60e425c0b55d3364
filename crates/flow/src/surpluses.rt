// The surpluses of all nodes at once.
ghost use Rattle.std.specs.Prelude.{◌≡◌, ℕ, ◌<◌, ◌≤◌, [], length, pos, negsuc, ◌+ℤ◌, ◌-ℤ◌, ◌==◌};
ghost use Rattle.cost.specs.Meaning.{Between};
ghost use Rattle.network.specs.Sums.{counted};
ghost use Rattle.network.specs.Records.{net_of, numbers as at};
ghost use Rattle.flow.specs.Surpluses.{Tells};

use network::graph::Graph;
use network::records::{MOST_NODES, Node};

// The supply of each node.
fn supplies_of(nodes: &[Node]) -> [i64; MOST_NODES]
    requires { length nodes.now ≤ MOST_NODES }
    ensures { (v : ℕ) → v < length nodes.now → at result v ≡ (net_of nodes.now [] []).supply v }
{
    let mut supplies = [0; MOST_NODES];
    // Of supplies that are written through a zip of `iter_mut`, a proof knows nothing afterwards.
    for (v, node) in nodes.iter().enumerate() {
        supplies[v] = node.supply;
    }
    supplies
}

// Adds an amount to one number of a list.
fn add(numbers: &mut [i64], place: usize, by: i64)
    requires place { place < length numbers.old }
    requires limit { Between (negsuc 99999999) (pos 100000000) (at numbers.old place) }
    requires amount { Between (negsuc 99999999) (pos 100000000) by }
    ensures { (v : ℕ) → at numbers.new v ≡ at numbers.old v +ℤ counted (place == v) by }
{
    numbers[place] += by;
}

// Takes an amount off one number and adds it to another.
pub(crate) fn transfer(numbers: &mut [i64], from: usize, to: usize, by: i64)
    requires from { from < length numbers.old }
    requires to { to < length numbers.old }
    requires limits { Between (negsuc 9999999) (pos 10000000) (at numbers.old from) × Between (negsuc 9999999) (pos 10000000) (at numbers.old to) }
    requires amount { Between (pos 0) (pos 10000000) by }
    ensures { (v : ℕ) → at numbers.new v ≡ at numbers.old v +ℤ counted (to == v) by -ℤ counted (from == v) by }
{
    add(numbers, to, by);
    add(numbers, from, -by);
}

// The surplus of each node: its supply, with each load added at the head of its arc and taken off at the tail.
pub(crate) fn surpluses_of(graph: &Graph<'_>, loads: &[i64]) -> [i64; MOST_NODES]
    requires loaded { length graph.now.arcs.now ≤ length loads.now }
    requires limits { (a : ℕ) → a < length graph.now.arcs.now → Between (pos 0) (pos 10000) (at loads.now a) }
    ensures { Tells graph.now loads.now result }
{
    let mut surpluses = supplies_of(graph.nodes);
    for (arc, load) in graph.arcs.iter().zip(loads) {
        transfer(&mut surpluses, arc.tail, arc.head, *load);
    }
    surpluses
}
