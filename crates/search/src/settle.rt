// The search as a whole.
ghost use Rattle.std.specs.Prelude.{◌≡◌, ℕ, ◌<◌, ◌≤◌, [], map, length, pos, OnOk, OnErr, IfOk, IfErr};
ghost use Rattle.cost.specs.Meaning.{Between};
ghost use Rattle.network.specs.Sums.{sum};
ghost use Rattle.network.specs.Network.{Meets, charge, floor, OverFull};
ghost use Rattle.network.specs.Records.{net_of, numbers, Sound};
ghost use Rattle.flow.specs.Sets.{member};
ghost use Rattle.search.specs.Settled.{arc_at, node_at, SameNodes, SameArcs, Settled, Barred};

use crate::draw::draw_in;
use crate::narrow::hold;
use crate::networks::Network;
use cost::costs::Cost;
use flow::meet::meet;
use flow::sets::NodeSet;
use flow::spans::Span;
use network::graph::Graph;
use network::records::{Arc, MOST_ARCS, MOST_NODES, Node};

// No routing meets the network.
#[derive(Clone, Copy, Debug, PartialEq, Eq)]
pub struct NoRouting;

impl<C: Cost> Network<'_, C> {
    ghost use Rattle.search.specs.Networks.{network_of};

    // Changes the loads into some routing that meets the network; where there is none, it answers a set of nodes that is over full. The loads
    // are written, here and below, and lie in a list of the caller's.
    fn route(&self, loads: &mut [i64]) -> Result<(), NodeSet>
        requires { length self.now.graph.arcs.now ≤ length loads.old }
        ensures meets { OnOk result (Meets (network_of C.Cost.meaning self.now) (numbers loads.new)) }
        ensures barred { IfErr result (λ set. OverFull (network_of C.Cost.meaning self.now) (member set)) }
    {
        // Settling takes no heap; places past the arcs are not read.
        let mut spans = [Span::default(); MOST_ARCS];
        self.widen(&mut spans);
        hold(&spans[0..self.graph.arcs.len()], loads);
        meet(&self.graph, &spans, loads)
    }

    // Changes the loads into a cheapest routing, and answers prices whose floor equals its charge; where no routing meets the network,
    // it answers a set of nodes that is over full.
    fn solve(&self, loads: &mut [i64]) -> Result<[i64; MOST_NODES], NodeSet>
        requires { length self.now.graph.arcs.now ≤ length loads.old }
        ensures meets { OnOk result (Meets (network_of C.Cost.meaning self.now) (numbers loads.new)) }
        ensures equal { IfOk result (λ prices. charge (network_of C.Cost.meaning self.now) (numbers loads.new) ≡ floor (network_of C.Cost.meaning self.now) (numbers prices)) }
        ensures limits { IfOk result (λ prices. (v : ℕ) → v < length self.now.graph.nodes.now → Between (pos 0) (pos 64000000) (numbers prices v)) }
        ensures barred { IfErr result (λ set. OverFull (network_of C.Cost.meaning self.now) (member set)) }
    {
        self.route(loads)?;
        let apart = self.improve(loads);
        Ok(draw_in(&apart[0..self.graph.nodes.len()]))
    }
}

// Gives each arc its load.
fn carry(arcs: &mut [Arc], loads: &[i64])
    requires { length arcs.old ≤ length loads.now }
    ensures same { SameArcs arcs.old arcs.new }
    ensures loads { (a : ℕ) → a < length arcs.old → (arc_at arcs.new a).load ≡ numbers loads.now a }
{
    // Of arcs that are written through a zip of `iter_mut`, a proof knows nothing afterwards.
    for (a, arc) in arcs.iter_mut().enumerate() {
        arc.load = loads[a];
    }
}

// Gives each node its price, and marks those of a set.
fn tag(nodes: &mut [Node], prices: &[i64], set: &NodeSet)
    requires { length nodes.old ≤ length prices.now }
    ensures same { SameNodes nodes.old nodes.new }
    ensures prices { (v : ℕ) → v < length nodes.old → (node_at nodes.new v).price ≡ numbers prices.now v }
    ensures marks { (v : ℕ) → v < length nodes.old → (node_at nodes.new v).marked ≡ member set.now v }
{
    // By index, as the arcs above.
    for (v, node) in nodes.iter_mut().enumerate() {
        node.price = prices[v];
        node.marked = set.contains(v);
    }
}

// Settles the network: the arcs then carry a cheapest routing, and the nodes have prices that show it. Where no routing meets the
// network, the marked nodes show why.
pub fn settle<C: Cost>(nodes: &mut [Node], arcs: &mut [Arc], costs: &[C]) -> Result<(), NoRouting>
    requires sound { Sound nodes.old arcs.old }
    requires costed { length costs.now ≡ length arcs.old }
    requires balanced { sum (length nodes.old) (net_of nodes.old arcs.old (map C.Cost.meaning costs.now)).supply ≡ pos 0 }
    ensures nodes { SameNodes nodes.old nodes.new }
    ensures arcs { SameArcs arcs.old arcs.new }
    ensures settled { OnOk result (Settled (net_of nodes.old arcs.old (map C.Cost.meaning costs.now)) nodes.new arcs.new) }
    ensures barred { OnErr result (Barred (net_of nodes.old arcs.old (map C.Cost.meaning costs.now)) nodes.new arcs.new) }
{
    // Settling takes no heap; places past the nodes and arcs are not read.
    let mut loads = [0; MOST_ARCS];
    let network = Network::of(Graph::of(nodes, arcs), costs);
    match network.solve(&mut loads) {
        Ok(prices) => {
            carry(arcs, &loads);
            tag(nodes, &prices, &NodeSet::empty());
            Ok(())
        }
        Err(set) => {
            carry(arcs, &[0; MOST_ARCS]);
            tag(nodes, &[0; MOST_NODES], &set);
            Err(NoRouting)
        }
    }
}
