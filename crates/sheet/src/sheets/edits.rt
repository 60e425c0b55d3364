// The edits of a book: another supply of a node, another cost of an arc. Both open it again.
ghost use Rattle.std.specs.Prelude.{◌≡◌, ◌<◌, [], ◌∷◌, ◌++◌, map, length, pos, negsuc, ◌≢◌, slice_index_or, slice_set};
ghost use Rattle.std.specs.Result.{result_err};
ghost use Rattle.cost.specs.Meaning.{Between};
ghost use Rattle.cost.specs.Places.{kept_or};
ghost use Rattle.network.specs.Records.{no_node};
ghost use Rattle.sheet.specs.Sheets.{book_of};
ghost use Rattle.ledger.specs.Books.{opened, reset_arc, reset_node};
ghost use Rattle.ledger.specs.Calls.{supplied, supply_refusal, swap_refusal, swapped, with_supply};

use crate::sheets::Sheet;
use crate::sheets::lookups::place_among;
use cost::costs::Cost;
use ledger::faults::SheetFault;
pub use ledger::limits::SUPPLIES;
use ledger::pricing::check_count;
use ledger::standing::Event;
use network::records::{Arc, Node};

// Records are reset in place, a loop for each kind of them: to map the arrays was tried, and takes many times as long.

// Takes price and mark from each node.
fn reset_nodes(nodes: &mut [Node])
    ensures { nodes.new ≡ map reset_node nodes.old }
{
    for node in nodes.iter_mut() {
        node.price = 0;
        node.marked = false;
    }
}

// Takes the load from each arc.
fn reset_arcs(arcs: &mut [Arc])
    ensures { arcs.new ≡ map reset_arc arcs.old }
{
    for arc in arcs.iter_mut() {
        arc.load = 0;
    }
}

impl Sheet {
    // The sheet stands open: loads and prices are 0, and no node is marked.
    fn reopen(&mut self)
        ensures { book_of self.new ≡ opened (book_of self.old).nodes (book_of self.old).arcs }
    {
        self.stand(Event::Edit);
        reset_nodes(&mut self.table.nodes);
        reset_arcs(&mut self.table.arcs);
    }

    // Writes the supply of a node into its record.
    pub(crate) fn put_supply(&mut self, v: usize, amount: i64)
        requires { (v < self.old.node_count) × (Between (negsuc 99999) (pos 100000) amount) }
        ensures nodes { (book_of self.new).nodes ≡ slice_set (book_of self.old).nodes v (with_supply amount (slice_index_or (book_of self.old).nodes v no_node)) }
        ensures arcs { (book_of self.new).arcs ≡ (book_of self.old).arcs }
        ensures standing { self.new.standing ≡ self.old.standing }
        ensures counts { self.new.node_count ≡ self.old.node_count }
    {
        self.table.nodes[v].supply = amount;
    }

    // Puts one arc more, without load, behind the others.
    pub(crate) fn push_arc(&mut self, tail: usize, head: usize)
        requires room { self.old.arc_count < 256 }
        requires tail { tail < self.old.node_count }
        requires head { head < self.old.node_count }
        requires apart { tail ≢ head }
        ensures nodes { (book_of self.new).nodes ≡ (book_of self.old).nodes }
        ensures arcs { (book_of self.new).arcs ≡ (book_of self.old).arcs ++ record { tail = tail; head = head; load = pos 0 } ∷ [] }
        ensures standing { self.new.standing ≡ self.old.standing }
        ensures counts { self.new.node_count ≡ self.old.node_count }
    {
        let arc = Arc {
            tail,
            head,
            load: 0,
        };
        self.table.arcs[self.arc_count] = arc;
        self.arc_count += 1;
    }

    // Sets the supply of one node.
    pub fn supply(&mut self, node: i64, amount: i64) -> Result<(), SheetFault>
        ensures answer { result_err result ≡ supply_refusal (book_of self.old) node amount }
        ensures after { book_of self.new ≡ kept_or (book_of self.old) (supply_refusal (book_of self.old) node amount) (supplied (book_of self.old) node amount) }
    {
        SUPPLIES.check(amount, 2)?;
        let v = place_among(node, self.node_count)?;
        self.put_supply(v, amount);
        self.reopen();
        Ok(())
    }

    // Replaces the cost of one arc in the list that is handed over.
    pub fn swap<C: Cost + Drop>(
        &mut self,
        arc: i64,
        cost: C,
        costs: &mut [C],
    ) -> Result<(), SheetFault>
        ensures answer { result_err result ≡ swap_refusal (book_of self.old) (length costs.old) arc }
        ensures after { book_of self.new ≡ kept_or (book_of self.old) (swap_refusal (book_of self.old) (length costs.old) arc) (opened (book_of self.old).nodes (book_of self.old).arcs) }
        ensures costs { costs.new ≡ kept_or costs.old (swap_refusal (book_of self.old) (length costs.old) arc) (swapped costs.old arc cost) }
    {
        check_count(costs.len(), self.arc_count)?;
        let a = place_among(arc, self.arc_count)?;
        costs[a] = cost;
        self.reopen();
        Ok(())
    }
}
