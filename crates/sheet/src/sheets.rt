// The sheet, in memory. Its calls are in the modules below.
ghost use Rattle.std.specs.Prelude.{◌≡◌, ℕ, ◌<◌, ◌≤◌, length, pos, negsuc, ◌≢◌, slice_index_or};
ghost use Rattle.cost.specs.Meaning.{Between};
ghost use Rattle.network.specs.Records.{no_node, no_arc};

use ledger::standing::Standing;
use network::records::{Arc, Node};
pub use network::records::{MOST_ARCS, MOST_NODES};

pub mod drafting;
pub mod edits;
pub mod lookups;
pub mod pricing;
pub mod settling;

// The records of a sheet, one for each node and one for each arc that it could have.
#[derive(Clone, Copy)]
pub struct Table {
    nodes: [Node; MOST_NODES],
    arcs: [Arc; MOST_ARCS],
}

// A sheet has the first `node_count` nodes and the first `arc_count` arcs of its table. Each arc goes from a node of the sheet
// to another node of the sheet, and each supply lies within its limits. Counts stand beside the table, and no vector of fixed
// capacity, since a sheet is plain data that is copied.
#[derive(Clone, Copy)]
pub struct Sheet {
    node_count: usize,
    arc_count: usize,
    table: Table,
    standing: Standing,
    ghost node_places: { length table.nodes ≡ 64 },
    ghost arc_places: { length table.arcs ≡ 256 },
    ghost few_nodes: { node_count ≤ 64 },
    ghost few_arcs: { arc_count ≤ 256 },
    ghost tails: { (a : ℕ) → a < arc_count → (slice_index_or table.arcs a no_arc).tail < node_count },
    ghost heads: { (a : ℕ) → a < arc_count → (slice_index_or table.arcs a no_arc).head < node_count },
    ghost supplies: { (v : ℕ) → v < node_count → Between (negsuc 99999) (pos 100000) (slice_index_or table.nodes v no_node).supply },
    ghost loops: { (a : ℕ) → a < arc_count → (slice_index_or table.arcs a no_arc).tail ≢ (slice_index_or table.arcs a no_arc).head },
}
