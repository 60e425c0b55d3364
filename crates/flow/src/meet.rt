// Loads within the spans of the arcs that leave no surplus, or a set of nodes that bars every such loads.
ghost use Rattle.std.specs.Prelude.{◌≡◌, ℕ, ◌<◌, ◌≤◌, [], length, pos, ◌<ℤ◌, OnOk, IfErr};
ghost use Rattle.network.specs.Sums.{sum};
ghost use Rattle.network.specs.Graphs.{net_in};
ghost use Rattle.network.specs.Records.{numbers};
ghost use Rattle.flow.specs.Spans.{low_of, high_of};
ghost use Rattle.flow.specs.Sets.{member};
ghost use Rattle.flow.specs.Within.{Ready, Met, OverFullWithin};
ghost use Rattle.flow.specs.Near.{Nearby};
ghost use Rattle.flow.specs.Labels.{reached_in};
ghost use Rattle.flow.specs.Surpluses.{Tells, excess};

use crate::loaded::Loaded;
use crate::near::{Near, lists_of};
use crate::push::push;
use crate::reach::{Label, first_over, label_sources};
use crate::sets::NodeSet;
use crate::spans::Span;
use crate::surpluses::{surpluses_of, transfer};
use crate::ways::Way;
use network::graph::Graph;
use network::records::MOST_NODES;

// The nodes that are labelled as reached.
fn reached_of(labels: &[Option<Label>; MOST_NODES]) -> NodeSet
    ensures { (v : ℕ) → member result v ≡ reached_in labels.now v }
{
    let mut reached = NodeSet::empty();
    for (v, label) in labels.iter().enumerate() {
        if label.is_some() {
            reached.insert(v);
        }
    }
    reached
}

// Brings as much as can go one way from a node of positive surplus, of which `over` is one, to a node of negative surplus. Where
// there is no way, the nodes that were reached are over full. The loads are written, so they come apart from the graph and
// the spans, which a loaded graph has together for reading.
fn relieve(
    graph: &Graph<'_>,
    spans: &[Span],
    loads: &mut [i64],
    surpluses: &mut [i64; MOST_NODES],
    near: &Near<'_>,
    labels: &mut [Option<Label>; MOST_NODES],
    over: usize,
) -> Result<(), NodeSet>
    requires ready { Ready graph.now spans.now loads.old }
    requires tells { Tells graph.now loads.old surpluses.old }
    requires near { Nearby (length graph.now.arcs.now) near.now }
    requires place { over < length graph.now.nodes.now }
    requires above { pos 0 <ℤ numbers surpluses.old over }
    ensures ready { Ready graph.now spans.now loads.new }
    ensures tells { Tells graph.now loads.new surpluses.new }
    ensures less { OnOk result (excess (length graph.now.nodes.now) surpluses.new < excess (length graph.now.nodes.now) surpluses.old) }
    ensures barred { IfErr result (λ set. OverFullWithin (net_in graph.now []) (low_of spans.now) (high_of spans.now) (member set)) }
{
    label_sources(graph, surpluses, labels);
    let loaded = Loaded {
        graph: *graph,
        spans,
        loads,
    };
    loaded.explore(surpluses, near, labels);
    let Some(target) = loaded.reach(surpluses, labels) else {
        return Err(reached_of(labels));
    };
    let by = labels[target].unwrap().width.min(-surpluses[target]);
    let start = push(graph, spans, loads, labels, target, by);
    transfer(surpluses, start, target, by);
    Ok(())
}

// Changes the loads until no node has a surplus; where that cannot be, answers a set of nodes that is over full.
pub fn meet(graph: &Graph<'_>, spans: &[Span], loads: &mut [i64]) -> Result<(), NodeSet>
    requires ready { Ready graph.now spans.now loads.old }
    requires balanced { sum (length graph.now.nodes.now) (net_in graph.now []).supply ≡ pos 0 }
    ensures ready { Ready graph.now spans.now loads.new }
    ensures met { OnOk result (Met (net_in graph.now []) (low_of spans.now) (high_of spans.now) (numbers loads.new)) }
    ensures barred { IfErr result (λ set. OverFullWithin (net_in graph.now []) (low_of spans.now) (high_of spans.now) (member set)) }
{
    let leaving = lists_of(graph, Way::Along);
    let entering = lists_of(graph, Way::Against);
    let near = Near {
        leaving: &leaving,
        entering: &entering,
    };
    let mut surpluses = surpluses_of(graph, loads);
    // Settling takes no heap; places past the nodes stay empty.
    let mut labels = [None; MOST_NODES];
    while let Some(over) = first_over(graph, &surpluses) {
        relieve(
            graph,
            spans,
            loads,
            &mut surpluses,
            &near,
            &mut labels,
            over,
        )?;
    }
    Ok(())
}
