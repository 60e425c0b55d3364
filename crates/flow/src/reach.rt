// Which nodes can be reached from those of positive surplus, over steps that the loads leave open.
ghost use Rattle.std.specs.Prelude.{◌≡◌, ℕ, ◌<◌, ◌≤◌, true, false, [], length, Some, pos, ◌≤ℤ◌, ◌<ℤ◌, if◌then◌else◌, MatchOption, IfSome, is_some, slice_set};
ghost use Rattle.network.specs.Graphs.{net_in};
ghost use Rattle.network.specs.Records.{numbers};
ghost use Rattle.flow.specs.Spans.{low_of, high_of};
ghost use Rattle.flow.specs.Labels.{label_of, reached_in, unreached, source, extends, onward_from, is_along, start_of, end_of, room_on, LabelledOn, ClosedOn};

use crate::loaded::Loaded;
use crate::ways::Way;
use network::graph::Graph;
use network::records::MOST_NODES;

// A step over an arc, along it or against it, from the node where it starts.
#[derive(Clone, Copy, Debug, PartialEq, Eq)]
pub struct Step {
    pub arc: usize,
    pub from: usize,
    pub way: Way,
}

// How a node was reached: after how many steps, how much can come to it, and by which step last, if it is no source.
#[derive(Clone, Copy, Debug, PartialEq, Eq)]
pub struct Label {
    pub order: usize,
    pub width: i64,
    pub step: Option<Step>,
}

// The label of a node from which a search starts, if its surplus is positive.
fn source(surplus: i64) -> Option<Label>
    ensures { result ≡ source surplus }
{
    if surplus > 0 {
        Some(Label {
            order: 0,
            width: surplus,
            step: None,
        })
    } else {
        None
    }
}

// Labels the nodes of positive surplus as reached, each with its surplus, and no other node.
pub(crate) fn label_sources(graph: &Graph<'_>, surpluses: &[i64], labels: &mut [Option<Label>])
    requires told { length graph.now.nodes.now ≤ length surpluses.now }
    requires long { length graph.now.nodes.now ≤ length labels.old }
    ensures { (v : ℕ) → v < length graph.now.nodes.now → label_of labels.new v ≡ source (numbers surpluses.now v) }
{
    // Of labels that are written through a zip of `iter_mut`, a proof knows nothing afterwards.
    for (v, label) in labels[..graph.nodes.len()].iter_mut().enumerate() {
        *label = source(surpluses[v]);
    }
}

// Reaches a node by a step with room from a node that was reached, unless it was reached before. Answers, as the insert of a set does,
// whether there is one more.
fn extend(labels: &mut [Option<Label>], step: Step, to: usize, room: i64) -> bool
    requires start { step.from < length labels.old }
    requires end { to < length labels.old }
    requires orders { (label : Label) → label_of labels.old step.from ≡ Some label → label.order < MOST_NODES }
    ensures answer { result ≡ extends labels.old step.from to room }
    ensures labelled { labels.new ≡ (if result then slice_set labels.old to (onward_from (label_of labels.old step.from) step room) else labels.old) }
{
    let Some(start) = labels[step.from] else {
        return false;
    };
    let fresh = labels[to].is_none() && room > 0;
    if fresh {
        labels[to] = Some(Label {
            order: start.order + 1,
            width: start.width.min(room),
            step: Some(step),
        });
    }
    fresh
}

// A node that was reached and has a negative surplus. Surpluses change while the graph is lent, so each call asks that there is one for each
// node.
pub(crate) fn first_short(
    graph: &Graph<'_>,
    surpluses: &[i64],
    labels: &[Option<Label>],
) -> Option<usize>
    requires told { length graph.now.nodes.now ≤ length surpluses.now }
    requires long { length graph.now.nodes.now ≤ length labels.now }
    ensures { MatchOption result ((v : ℕ) → v < length graph.now.nodes.now → reached_in labels.now v ≡ true → pos 0 ≤ℤ numbers surpluses.now v) (λ v. (v < length graph.now.nodes.now) × (reached_in labels.now v ≡ true) × (numbers surpluses.now v <ℤ pos 0)) }
{
    let surpluses = &surpluses[..graph.nodes.len()];
    surpluses
        .iter()
        .zip(labels)
        .position(|(surplus, label)| label.is_some() && *surplus < 0)
}

// A node of positive surplus.
pub(crate) fn first_over(graph: &Graph<'_>, surpluses: &[i64]) -> Option<usize>
    requires told { length graph.now.nodes.now ≤ length surpluses.now }
    ensures { MatchOption result ((v : ℕ) → v < length graph.now.nodes.now → numbers surpluses.now v ≤ℤ pos 0) (λ v. (v < length graph.now.nodes.now) × (pos 0 <ℤ numbers surpluses.now v)) }
{
    surpluses[..graph.nodes.len()]
        .iter()
        .position(|surplus| *surplus > 0)
}

// What labels must say is a record of facts, which no field of a type can hold, so each contract asks for it.
impl Loaded<'_> {
    // Tries a step over an arc, along it or against it; answers the node that it reaches, if it is one more.
    pub(crate) fn step_over(
        &self,
        arc: usize,
        way: Way,
        labels: &mut [Option<Label>],
    ) -> Option<usize>
        requires place { arc < length self.now.graph.arcs.now }
        requires labels { LabelledOn self.now labels.old }
        ensures labelled { LabelledOn self.now labels.new }
        ensures node { IfSome result (λ v. (v < length self.now.graph.nodes.now) × (v ≡ end_of (net_in self.now.graph []) (is_along way) arc)) }
        ensures further { is_some result ≡ true → unreached (length self.now.graph.nodes.now) labels.new < unreached (length self.now.graph.nodes.now) labels.old }
        ensures same { is_some result ≡ false → labels.new ≡ labels.old }
        ensures shut { is_some result ≡ false → reached_in labels.old (start_of (net_in self.now.graph []) (is_along way) arc) ≡ true → pos 0 <ℤ room_on (is_along way) (low_of self.now.spans.now arc) (high_of self.now.spans.now arc) (numbers self.now.loads.now arc) → reached_in labels.old (end_of (net_in self.now.graph []) (is_along way) arc) ≡ true }
    {
        let from = way.start(&self.graph.arcs[arc]);
        let to = way.end(&self.graph.arcs[arc]);
        let room = way.room(self.spans[arc], self.loads[arc]);
        extend(labels, Step { arc, from, way }, to, room).then_some(to)
    }

    // One pass over the arcs that reaches further nodes over steps with room; answers whether there were any.
    fn spread(&self, labels: &mut [Option<Label>]) -> bool
        requires { LabelledOn self.now labels.old }
        ensures labelled { LabelledOn self.now labels.new }
        ensures further { result ≡ true → unreached (length self.now.graph.nodes.now) labels.new < unreached (length self.now.graph.nodes.now) labels.old }
        ensures closed { result ≡ false → (a : ℕ) → a < length self.now.graph.arcs.now → ClosedOn self.now labels.old a }
        ensures same { result ≡ false → labels.new ≡ labels.old }
    {
        let mut further = false;
        // A step keeps the place of its arc, so places are counted.
        for arc in 0..self.graph.arcs.len() {
            let along = self.step_over(arc, Way::Along, labels).is_some();
            let against = self.step_over(arc, Way::Against, labels).is_some();
            further = further | along | against;
        }
        further
    }

    // Spreads until a node of negative surplus is reached, or no step with room leads further.
    pub(crate) fn reach(&self, surpluses: &[i64], labels: &mut [Option<Label>]) -> Option<usize>
        requires told { length self.now.graph.nodes.now ≤ length surpluses.now }
        requires labels { LabelledOn self.now labels.old }
        ensures labelled { LabelledOn self.now labels.new }
        ensures found { MatchOption result (((a : ℕ) → a < length self.now.graph.arcs.now → ClosedOn self.now labels.new a) × ((v : ℕ) → v < length self.now.graph.nodes.now → reached_in labels.new v ≡ true → pos 0 ≤ℤ numbers surpluses.now v)) (λ v. (v < length self.now.graph.nodes.now) × (reached_in labels.new v ≡ true) × (numbers surpluses.now v <ℤ pos 0)) }
    {
        loop {
            if let Some(node) = first_short(&self.graph, surpluses, labels) {
                return Some(node);
            }
            if !self.spread(labels) {
                return None;
            }
        }
    }
}
