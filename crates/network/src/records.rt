// The records that a network is kept in, and how many of them there may be.

// A network has at most so many nodes.
pub const MOST_NODES: usize = 64;

// A network has at most so many arcs.
pub const MOST_ARCS: usize = 256;

// What is known of a node; a mark says that it belongs to the set that bars every routing.
#[derive(Clone, Copy, Debug, Default, PartialEq, Eq)]
pub struct Node {
    pub supply: i64,
    pub price: i64,
    pub marked: bool,
}

// An arc: the nodes that it leaves and enters, counted from 0, and the load that it carries.
#[derive(Clone, Copy, Debug, Default, PartialEq, Eq)]
pub struct Arc {
    pub tail: usize,
    pub head: usize,
    pub load: i64,
}
