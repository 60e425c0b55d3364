// Sets of nodes, counted from 0.
ghost use Rattle.std.specs.Prelude.{◌≡◌, ℕ, ◌<◌, false, ◌||◌, ◌==◌};
ghost use Rattle.flow.specs.Sets.{member};

use network::records::MOST_NODES;

// For each node whether it is in the set. Settling takes no heap; places past the nodes are not read.
#[derive(Clone, Copy, Debug, PartialEq, Eq)]
pub struct NodeSet {
    members: [bool; MOST_NODES],
}

impl NodeSet {
    // No node.
    pub fn empty() -> NodeSet
        ensures { (v : ℕ) → member result v ≡ false }
    {
        NodeSet {
            members: [false; MOST_NODES],
        }
    }

    // Whether the node is in the set.
    pub fn contains(&self, node: usize) -> bool
        ensures { result ≡ member self.now node }
    {
        self.members.get(node) == Some(&true)
    }

    // Puts a node into the set.
    pub fn insert(&mut self, node: usize)
        requires { node < MOST_NODES }
        ensures { (v : ℕ) → member self.new v ≡ (node == v || member self.old v) }
    {
        self.members[node] = true;
    }
}
