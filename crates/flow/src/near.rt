// The arcs at each node, in lists that lie in fixed arrays.
ghost use Rattle.std.specs.Prelude.{◌≡◌, ℕ, ◌<◌, ◌≤◌, length, Some, IfSome, slice_set};
ghost use Rattle.std.specs.Iterator.{at_most};
ghost use Rattle.flow.specs.Near.{Listed, listed_at, past};

use crate::ways::Way;
use network::graph::Graph;
use network::records::{MOST_ARCS, MOST_NODES};

// One list of arcs for each node: the first arc of each list, and after each arc the next one of its list.
// Settling cannot fail and so takes no heap: the lists lie in fixed arrays, and an arc stands for its place.
#[derive(Clone, Copy)]
pub struct Lists {
    pub firsts: [Option<usize>; MOST_NODES],
    pub nexts: [Option<usize>; MOST_ARCS],
}

// A walk along one list: the arc that comes next, and after each arc the next one, which stands before it.
#[derive(Clone, Copy)]
pub struct Walk<'a> {
    pub nexts: &'a [Option<usize>],
    pub ahead: Option<usize>,
    ghost within: { past ahead ≤ length nexts.now },
    ghost earlier: { (a : ℕ) → past (listed_at nexts.now a) ≤ a },
}

impl Iterator for Walk<'_> {
    type Item = usize;

    ghost next_gives = { λ s r t. IfSome r (λ a. a < past s.ahead) × (past t.ahead ≤ past s.ahead) };

    ghost remaining = { λ s. at_most (past s.ahead) };

    // The arc that comes next.
    fn next(&mut self) -> Option<usize> {
        let arc = self.ahead?;
        self.ahead = self.nexts[arc];
        Some(arc)
    }
}

// The lists of the arcs that leave each node, and of those that enter it.
#[derive(Clone, Copy)]
pub struct Near<'a> {
    pub leaving: &'a Lists,
    pub entering: &'a Lists,
}

// Puts an arc before the other arcs in the list of a node.
fn link(lists: &mut Lists, node: usize, arc: usize)
    requires node { node < MOST_NODES }
    requires arc { arc < MOST_ARCS }
    ensures firsts { lists.new.firsts ≡ slice_set lists.old.firsts node (Some arc) }
    ensures nexts { lists.new.nexts ≡ slice_set lists.old.nexts arc (listed_at lists.old.firsts node) }
{
    lists.nexts[arc] = lists.firsts[node];
    lists.firsts[node] = Some(arc);
}

// Lists each arc at the node from which a step over it starts.
pub(crate) fn lists_of(graph: &Graph<'_>, way: Way) -> Lists
    ensures { Listed (length graph.now.arcs.now) result }
{
    let mut lists = Lists {
        firsts: [None; MOST_NODES],
        nexts: [None; MOST_ARCS],
    };
    for (a, arc) in graph.arcs.iter().enumerate() {
        link(&mut lists, way.start(arc), a);
    }
    lists
}
