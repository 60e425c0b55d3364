// The nodes and arcs of a network, lent together.
ghost use Rattle.std.specs.Prelude.{◌≡◌, ℕ, ◌<◌, ◌≤◌, length, pos, negsuc, slice_index_or};
ghost use Rattle.cost.specs.Meaning.{Between};
ghost use Rattle.network.specs.declared.records.TheConstants.{MOST_NODES, MOST_ARCS};
ghost use Rattle.network.specs.Records.{no_node, no_arc, Sound};

use crate::records::{Arc, Node};

// At most so many nodes and arcs as a network may have. Each arc goes from a node of the list to a node of the list, and each supply lies within its limits.
#[derive(Clone, Copy)]
pub struct Graph<'a> {
    pub nodes: &'a [Node],
    pub arcs: &'a [Arc],
    ghost few_nodes: { length nodes.now ≤ MOST_NODES },
    ghost few_arcs: { length arcs.now ≤ MOST_ARCS },
    ghost tails: { (a : ℕ) → a < length arcs.now → (slice_index_or arcs.now a no_arc).tail < length nodes.now },
    ghost heads: { (a : ℕ) → a < length arcs.now → (slice_index_or arcs.now a no_arc).head < length nodes.now },
    ghost supplies: { (v : ℕ) → v < length nodes.now → Between (negsuc 99999) (pos 100000) (slice_index_or nodes.now v no_node).supply },
}

impl<'a> Graph<'a> {
    // These nodes and arcs.
    pub fn of(nodes: &'a [Node], arcs: &'a [Arc]) -> Graph<'a>
        requires { Sound nodes.now arcs.now }
        ensures nodes { result.nodes.now ≡ nodes.now }
        ensures arcs { result.arcs.now ≡ arcs.now }
    {
        Graph { nodes, arcs }
    }
}
