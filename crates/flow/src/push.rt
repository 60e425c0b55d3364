// Pushing an amount along the way on which a search reached a node.
ghost use Rattle.std.specs.Prelude.{◌≡◌, ℕ, ◌<◌, [], length, None, IsSomeAnd, pos, negsuc, ◌+ℤ◌, ◌-ℤ◌, neg_ℤ, ◌≤ℤ◌, if◌then◌else◌, ◌==◌, slice_set};
ghost use Rattle.cost.specs.Meaning.{Between};
ghost use Rattle.network.specs.Sums.{counted};
ghost use Rattle.network.specs.Network.{surplus};
ghost use Rattle.network.specs.Graphs.{net_in};
ghost use Rattle.network.specs.Records.{numbers};
ghost use Rattle.flow.specs.Spans.{low_of, high_of};
ghost use Rattle.flow.specs.Within.{Ready};
ghost use Rattle.flow.specs.Labels.{is_along, label_of, step_of, Labelled};

use crate::reach::{Label, Step};
use crate::spans::Span;
use crate::ways::Way;
use network::graph::Graph;

// Changes the load of the arc of a step by an amount, in the direction of the step.
fn shift(loads: &mut [i64], step: Step, by: i64)
    requires place { step.arc < length loads.old }
    requires limits { Between (pos 0) (pos 10000) (numbers loads.old step.arc) }
    requires amount { Between (pos 0) (pos 10000) by }
    ensures { loads.new ≡ slice_set loads.old step.arc (numbers loads.old step.arc +ℤ (if is_along step.way then by else neg_ℤ by)) }
{
    match step.way {
        Way::Along => loads[step.arc] += by,
        Way::Against => loads[step.arc] -= by,
    }
}

// The step by which a node was reached last, if it was reached by one.
fn step_to(labels: &[Option<Label>], node: usize) -> Option<Step>
    requires { node < length labels.now }
    ensures { result ≡ step_of (label_of labels.now node) }
{
    labels[node]?.step
}

// Pushes an amount to a node along the way on which it was reached, and answers the node where that way starts.
// The loads are written, so they come apart from the graph and the spans, which a loaded graph has together for reading.
pub(crate) fn push(
    graph: &Graph<'_>,
    spans: &[Span],
    loads: &mut [i64],
    labels: &[Option<Label>],
    target: usize,
    by: i64,
) -> usize
    requires ready { Ready graph.now spans.now loads.old }
    requires labels { Labelled (net_in graph.now []) (low_of spans.now) (high_of spans.now) (numbers loads.old) labels.now }
    requires place { target < length graph.now.nodes.now }
    requires sign { pos 0 ≤ℤ by }
    requires amount { IsSomeAnd (label_of labels.now target) (λ label. by ≤ℤ label.width) }
    ensures ready { Ready graph.now spans.now loads.new }
    ensures place { result < length graph.now.nodes.now }
    ensures first { IsSomeAnd (label_of labels.now result) (λ label. (label.step ≡ None) × (by ≤ℤ label.width)) }
    ensures moved { (v : ℕ) → v < length graph.now.nodes.now → surplus (net_in graph.now []) (numbers loads.new) v ≡ surplus (net_in graph.now []) (numbers loads.old) v +ℤ counted (target == v) by -ℤ counted (result == v) by }
{
    let mut node = target;
    while let Some(step) = step_to(labels, node) {
        shift(loads, step, by);
        node = step.from;
    }
    node
}
