// The network that a search works on.
ghost use Rattle.std.specs.Prelude.{◌≡◌, [], length, pos};
ghost use Rattle.network.specs.Sums.{sum};
ghost use Rattle.network.specs.Graphs.{net_in};
ghost use Rattle.network.specs.Records.{net_of};

use network::graph::Graph;

// A graph with a cost for each arc. The supplies sum to 0.
#[derive(Drop)]
pub(crate) struct Network<'a, C> {
    pub graph: Graph<'a>,
    pub costs: &'a [C],
    ghost costed: { length costs.now ≡ length graph.arcs.now },
    ghost balanced: { sum (length graph.nodes.now) (net_of graph.nodes.now graph.arcs.now []).supply ≡ pos 0 },
}

impl<'a, C> Network<'a, C> {
    // This graph, with these costs.
    pub(crate) fn of(graph: Graph<'a>, costs: &'a [C]) -> Network<'a, C>
        requires costed { length costs.now ≡ length graph.arcs.now }
        requires balanced { sum (length graph.nodes.now) (net_in graph []).supply ≡ pos 0 }
        ensures nodes { result.graph.nodes.now ≡ graph.entry.nodes.now }
        ensures arcs { result.graph.arcs.now ≡ graph.entry.arcs.now }
        ensures costs { result.costs.now ≡ costs.now }
    {
        Network { graph, costs }
    }
}
