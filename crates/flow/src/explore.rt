// A search from node to node over the arcs at hand, by which the labels spread fast.
ghost use Rattle.std.specs.Prelude.{◌<◌, ◌≤◌, length};
ghost use Rattle.flow.specs.Labels.{LabelledOn};
ghost use Rattle.flow.specs.Near.{Listed, Nearby};
ghost use Rattle.flow.specs.Queues.{Queued};

use crate::loaded::Loaded;
use crate::near::{Lists, Near, Walk};
use crate::reach::Label;
use crate::ways::Way;
use arrayvec::ArrayVec;
use network::records::MOST_NODES;

// The nodes that were reached, in the order in which they were. What must hold of the queue is a record of facts about
// the labels too, which no field of a type can hold.
type Queue = ArrayVec<usize, MOST_NODES>;

impl Loaded<'_> {
    // A queue of the nodes that are labelled as reached. Past the nodes a list of labels may hold anything.
    fn reached_now(&self, labels: &[Option<Label>]) -> Queue
        requires { length self.now.graph.nodes.now ≤ length labels.now }
        ensures { Queued (length self.now.graph.nodes.now) labels.now result.items }
    {
        let mut queue = Queue::new();
        for (v, label) in labels[..self.graph.nodes.len()].iter().enumerate() {
            if label.is_some() {
                queue.push(v);
            }
        }
        queue
    }

    // Tries a step over an arc; the node that it reaches joins the queue.
    fn advance(&self, arc: usize, way: Way, labels: &mut [Option<Label>], queue: &mut Queue)
        requires place { arc < length self.now.graph.arcs.now }
        requires labels { LabelledOn self.now labels.old }
        requires queued { Queued (length self.now.graph.nodes.now) labels.old queue.old.items }
        ensures labelled { LabelledOn self.now labels.new }
        ensures queued { Queued (length self.now.graph.nodes.now) labels.new queue.new.items }
    {
        if let Some(node) = self.step_over(arc, way, labels) {
            queue.push(node);
        }
    }

    // Tries the steps over the arcs in the list of a node.
    fn follow(
        &self,
        lists: &Lists,
        node: usize,
        way: Way,
        labels: &mut [Option<Label>],
        queue: &mut Queue,
    )
        requires listed { Listed (length self.now.graph.arcs.now) lists.now }
        requires place { node < length self.now.graph.nodes.now }
        requires labels { LabelledOn self.now labels.old }
        requires queued { Queued (length self.now.graph.nodes.now) labels.old queue.old.items }
        ensures labelled { LabelledOn self.now labels.new }
        ensures queued { Queued (length self.now.graph.nodes.now) labels.new queue.new.items }
    {
        let walk = Walk {
            nexts: &lists.nexts,
            ahead: lists.firsts[node],
        };
        for arc in walk {
            self.advance(arc, way, labels, queue);
        }
    }

    // Tries the steps from a node, over the arcs that leave it and against those that enter it.
    fn visit(&self, near: &Near<'_>, node: usize, labels: &mut [Option<Label>], queue: &mut Queue)
        requires near { Nearby (length self.now.graph.arcs.now) near.now }
        requires place { node < length self.now.graph.nodes.now }
        requires labels { LabelledOn self.now labels.old }
        requires queued { Queued (length self.now.graph.nodes.now) labels.old queue.old.items }
        ensures labelled { LabelledOn self.now labels.new }
        ensures queued { Queued (length self.now.graph.nodes.now) labels.new queue.new.items }
    {
        self.follow(near.leaving, node, Way::Along, labels, queue);
        self.follow(near.entering, node, Way::Against, labels, queue);
    }

    // Spreads the labels from node to node, in the order in which the nodes are reached, until the turn comes to a node of negative surplus.
    // It promises no more than sound labels: whether no step leads further is for a pass over all arcs to tell.
    pub(crate) fn explore(&self, surpluses: &[i64], near: &Near<'_>, labels: &mut [Option<Label>])
        requires told { length self.now.graph.nodes.now ≤ length surpluses.now }
        requires near { Nearby (length self.now.graph.arcs.now) near.now }
        requires labels { LabelledOn self.now labels.old }
        ensures { LabelledOn self.now labels.new }
    {
        let mut queue = self.reached_now(labels);
        // The queue grows while it is read, so its places are counted; the library's ring takes heap, which settling must not.
        for turn in 0..self.graph.nodes.len() {
            let Some(&node) = queue.as_slice().get(turn) else {
                return;
            };
            if surpluses[node] < 0 {
                return;
            }
            self.visit(near, node, labels, &mut queue);
        }
    }
}
