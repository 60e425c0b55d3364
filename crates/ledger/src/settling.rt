// What settling refuses beforehand, and the amounts of what a book then holds.
ghost use Rattle.std.specs.Prelude.{◌≡◌, ℕ, ◌<◌, ◌≤◌, [], map, length, pos, negsuc, slice_index_or};
ghost use Rattle.std.specs.Fn.{FnReturnsAt};
ghost use Rattle.std.specs.Result.{result_err};
ghost use Rattle.cost.specs.Meaning.{Between};
ghost use Rattle.network.specs.Sums.{count};
ghost use Rattle.network.specs.Network.{charge, floor, Routing};
ghost use Rattle.network.specs.Graphs.{net_in};
ghost use Rattle.network.specs.Records.{net_of, numbers};
ghost use Rattle.search.specs.Settled.{loads_of, prices_of, marks_of};
ghost use Rattle.ledger.specs.Settling.{settle_refusal, supply_sum};

use crate::faults::SheetFault;
use crate::pricing::check_count;
use arrayvec::ArrayVec;
use cost::costs::Cost;
use network::charge::charge_of;
use network::graph::Graph;
use network::records::{Arc, MOST_ARCS, MOST_NODES, Node};

// What a settled book comes to: the charge of its loads, and the floor of its prices.
#[derive(Clone, Copy, Debug, PartialEq, Eq)]
pub struct Amounts {
    pub charge: i64,
    pub floor: i64,
}

// The supplies of the nodes, summed.
fn sum_of_supplies(graph: &Graph<'_>) -> i64
    ensures { result ≡ supply_sum graph.now.nodes.now }
{
    let mut sum = 0;
    for node in graph.nodes {
        sum += node.supply;
    }
    sum
}

// How many nodes are marked.
pub fn count_marked(nodes: &[Node]) -> usize
    ensures { result ≡ count (length nodes.now) (marks_of nodes.now) }
{
    nodes.iter().filter(|node| node.marked).count()
}

// One number of each item, in order.
fn numbers_of<T, F: Fn(&T) -> i64, const MOST: usize>(items: &[T], number: F) -> ArrayVec<i64, MOST>
    requires callable { F.IsAlwaysCallable number }
    requires room { length items.now ≤ MOST }
    ensures many { length result.items ≡ length items.now }
    ensures numbers { (k : ℕ) (other : T) → k < length items.now → FnReturnsAt F.Fn number (slice_index_or items.now k other) (numbers result.items k) }
{
    let mut numbers = ArrayVec::new();
    for item in items {
        numbers.push(number(item));
    }
    numbers
}

// Refuses another number of costs than there are arcs, and supplies that do not sum to 0.
pub fn check_settling(graph: &Graph<'_>, costs: usize) -> Result<(), SheetFault>
    ensures { result_err result ≡ settle_refusal graph.now.nodes.now graph.now.arcs.now costs }
{
    check_count(costs, graph.arcs.len())?;
    if sum_of_supplies(graph) != 0 {
        return Err(SheetFault::Unbalanced);
    }
    Ok(())
}

// The charge of the loads that the arcs carry.
pub fn charge_carried<C: Cost>(arcs: &[Arc], costs: &[C]) -> i64
    requires limit { length arcs.now ≤ MOST_ARCS }
    requires costed { length costs.now ≡ length arcs.now }
    requires ranges { Routing (net_of [] arcs.now (map C.Cost.meaning costs.now)) (loads_of arcs.now) }
    ensures { result ≡ charge (net_of [] arcs.now (map C.Cost.meaning costs.now)) (loads_of arcs.now) }
{
    let loads: ArrayVec<i64, MOST_ARCS> = numbers_of(arcs, |arc| arc.load);
    charge_of(costs, loads.as_slice())
}

// The floor of the prices that the nodes have.
pub fn floor_held<C: Cost>(graph: &Graph<'_>, costs: &[C]) -> i64
    requires costed { length costs.now ≡ length graph.now.arcs.now }
    requires limits { (v : ℕ) → v < length graph.now.nodes.now → Between (negsuc 99999999) (pos 100000000) (prices_of graph.now.nodes.now v) }
    ensures { result ≡ floor (net_in graph.now (map C.Cost.meaning costs.now)) (prices_of graph.now.nodes.now) }
{
    let prices: ArrayVec<i64, MOST_NODES> = numbers_of(graph.nodes, |node| node.price);
    graph.floor_of(costs, prices.as_slice())
}
