// From a routing that meets the network to a cheapest one, with the prices that show it.
ghost use Rattle.std.specs.Prelude.{◌≡◌, ℕ, ◌<◌, ◌≤◌, length, pos, ◌+ℤ◌, ◌≤ℤ◌, ◌<ℤ◌, OnOk, IfErr};
ghost use Rattle.cost.specs.Meaning.{Between};
ghost use Rattle.network.specs.Network.{Meets, floor};
ghost use Rattle.network.specs.Records.{numbers};
ghost use Rattle.flow.specs.Sets.{member};
ghost use Rattle.search.specs.Prices.{raised, Modest, AllSlack};

use crate::narrow::hold;
use crate::networks::Network;
use cost::costs::Cost;
use flow::meet::meet;
use flow::sets::NodeSet;
use flow::spans::Span;
use network::records::{Arc, MOST_ARCS, MOST_NODES};

// The step with which a search begins.
const LARGEST_STEP: i64 = 1_048_576;

// Where a search has come to: a price for each node, and for each arc the span of the loads that are slack within a step of its
// tension. Settling takes no heap; places past the nodes and arcs are not read.
#[derive(Drop)]
struct Search<'a, C> {
    network: &'a Network<'a, C>,
    prices: [i64; MOST_NODES],
    step: i64,
    spans: [Span; MOST_ARCS],
    ghost modest: { Modest (length network.now.graph.nodes.now) prices },
    ghost step_from: { pos 1 ≤ℤ step },
    ghost step_to: { step ≤ℤ pos 1048576 },
    ghost priced: { length prices ≡ 64 },
    ghost spanned: { length spans ≡ 256 },
}

// Raises the prices of a set of nodes.
fn raise_in(set: &NodeSet, step: i64, prices: &mut [i64])
    requires { (v : ℕ) → v < length prices.old → Between (pos 0) (pos 1000000000000000) (raised (numbers prices.old) (member set.now) step v) }
    ensures { (v : ℕ) → v < length prices.old → numbers prices.new v ≡ raised (numbers prices.old) (member set.now) step v }
{
    for (v, price) in prices.iter_mut().enumerate() {
        if set.contains(v) {
            *price += step;
        }
    }
}

impl<'a, C: Cost> Search<'a, C> {
    ghost use Rattle.search.specs.Networks.{network_of};
    ghost use Rattle.search.specs.Searches.{IsNarrow};

    // A search that begins: all prices are 0, and the step is the largest.
    fn begin(network: &'a Network<'a, C>) -> Search<'a, C>
        ensures network { result.network.now ≡ network.now }
        ensures prices { (v : ℕ) → v < length network.now.graph.nodes.now → numbers result.prices v ≡ pos 0 }
        ensures step { result.step ≡ pos 1048576 }
        ensures narrow { IsNarrow C.Cost.meaning result }
    {
        let prices = [0; MOST_NODES];
        let mut spans = [Span::default(); MOST_ARCS];
        network.narrow(&prices, LARGEST_STEP, |_| true, &mut spans);
        Search {
            network,
            prices,
            step: LARGEST_STEP,
            spans,
        }
    }

    // Looks for a routing that meets the network with each load in its span. Where there is none, it answers a set of nodes whose prices
    // to raise.
    fn attempt(&self, loads: &mut [i64]) -> Result<(), NodeSet>
        requires narrow { IsNarrow C.Cost.meaning self.now }
        requires loaded { length self.now.network.now.graph.arcs.now ≤ length loads.old }
        ensures met { OnOk result (Meets (network_of C.Cost.meaning self.now.network.now) (numbers loads.new)) }
        ensures slack { OnOk result (self.now.step ≡ pos 1 → AllSlack (network_of C.Cost.meaning self.now.network.now) (numbers self.now.prices) (numbers loads.new)) }
        ensures rises { IfErr result (λ set. (floor (network_of C.Cost.meaning self.now.network.now) (numbers self.now.prices) +ℤ self.now.step) ≤ℤ floor (network_of C.Cost.meaning self.now.network.now) (raised (numbers self.now.prices) (member set) self.now.step)) }
    {
        let graph = &self.network.graph;
        hold(&self.spans[0..graph.arcs.len()], loads);
        meet(graph, &self.spans, loads)
    }

    // Raises the prices of a set of nodes by the step.
    fn raise(&mut self, set: &NodeSet)
        requires narrow { IsNarrow C.Cost.meaning self.old }
        requires limits { (v : ℕ) → v < length self.old.network.now.graph.nodes.now → Between (pos 0) (pos 1000000000000000) (raised (numbers self.old.prices) (member set.now) self.old.step v) }
        ensures network { self.new.network.now ≡ self.old.network.now }
        ensures prices { (v : ℕ) → v < length self.old.network.now.graph.nodes.now → numbers self.new.prices v ≡ raised (numbers self.old.prices) (member set.now) self.old.step v }
        ensures step { self.new.step ≡ self.old.step }
        ensures narrow { IsNarrow C.Cost.meaning self.new }
    {
        let network = self.network;
        let nodes = network.graph.nodes.len();
        raise_in(set, self.step, &mut self.prices[0..nodes]);
        let crosses = |arc: &Arc| set.contains(arc.tail) != set.contains(arc.head);
        network.narrow(&self.prices, self.step, crosses, &mut self.spans);
    }

    // Halves the step.
    fn halve(&mut self)
        requires { pos 1 <ℤ self.old.step }
        ensures network { self.new.network.now ≡ self.old.network.now }
        ensures prices { self.new.prices ≡ self.old.prices }
        ensures less { self.new.step <ℤ self.old.step }
        ensures narrow { IsNarrow C.Cost.meaning self.new }
    {
        self.step /= 2;
        self.network
            .narrow(&self.prices, self.step, |_| true, &mut self.spans);
    }
}

impl<C: Cost> Network<'_, C> {
    ghost use Rattle.search.specs.Networks.{network_of};

    // Changes the loads into those of a cheapest routing, and answers prices at which each load is slack. The prices of a set of nodes
    // that bars every routing with loads slack near the tensions are raised, by steps that get smaller.
    pub(crate) fn improve(&self, loads: &mut [i64]) -> [i64; MOST_NODES]
        requires loaded { length self.now.graph.arcs.now ≤ length loads.old }
        requires meets { Meets (network_of C.Cost.meaning self.now) (numbers loads.old) }
        ensures meets { Meets (network_of C.Cost.meaning self.now) (numbers loads.new) }
        ensures slack { AllSlack (network_of C.Cost.meaning self.now) (numbers result) (numbers loads.new) }
        ensures modest { Modest (length self.now.graph.nodes.now) result }
    {
        let mut search = Search::begin(self);
        loop {
            match search.attempt(loads) {
                Err(set) => search.raise(&set),
                Ok(()) if search.step == 1 => return search.prices,
                Ok(()) => search.halve(),
            }
        }
    }
}
