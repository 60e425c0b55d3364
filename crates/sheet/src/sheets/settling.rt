// Settling a book: it then holds a cheapest routing, with prices that show it, or the marks of a set that bars every routing.
ghost use Rattle.std.specs.Prelude.{◌≡◌, ◌<◌, false, ◌↔◌, map, length, is_ok, OnOk, OnErr, None};
ghost use Rattle.network.specs.Network.{charge, floor};
ghost use Rattle.search.specs.Settled.{SameNodes, SameArcs, Settled as Found, Barred as Bars};
ghost use Rattle.sheet.specs.Sheets.{book_of};
ghost use Rattle.ledger.specs.Books.{network_of};
ghost use Rattle.ledger.specs.Settling.{settle_refusal, Settles, Feasible, EqualWhenBest};
ghost use Rattle.ledger.specs.Standings.{moved};

use crate::sheets::Sheet;
use cost::costs::Cost;
use ledger::faults::SheetFault;
use ledger::settling::{Amounts, charge_carried, check_settling, count_marked, floor_held};
use ledger::standing::Event;
use search::settle::{NoRouting, settle};

impl Sheet {
    // Moves the standing by an event. An edit and a settling are never refused.
    pub(crate) fn stand(&mut self, event: Event)
        ensures nodes { (book_of self.new).nodes ≡ (book_of self.old).nodes }
        ensures arcs { (book_of self.new).arcs ≡ (book_of self.old).arcs }
        ensures standing { (book_of self.new).standing ≡ moved event (book_of self.old).standing }
    {
        let _ = self.standing.meet(event);
    }

    // Lets the search work on the records of the book: they then hold a cheapest routing and prices, or the marks that bar one.
    fn search<C: Cost>(&mut self, costs: &[C]) -> Result<(), NoRouting>
        requires { None ≡ settle_refusal (book_of self.old).nodes (book_of self.old).arcs (length costs.now) }
        ensures nodes { SameNodes (book_of self.old).nodes (book_of self.new).nodes }
        ensures arcs { SameArcs (book_of self.old).arcs (book_of self.new).arcs }
        ensures found { OnOk result (Found (network_of (book_of self.old) (map C.Cost.meaning costs.now)) (book_of self.new).nodes (book_of self.new).arcs) }
        ensures bars { OnErr result (Bars (network_of (book_of self.old) (map C.Cost.meaning costs.now)) (book_of self.new).nodes (book_of self.new).arcs) }
    {
        let nodes = &mut self.table.nodes[0..self.node_count];
        let arcs = &mut self.table.arcs[0..self.arc_count];
        settle(nodes, arcs, costs)
    }

    // Settles the book: it then holds a cheapest routing with prices that show it, or the marks of a set that bars every routing.
    // Another number of costs than arcs, and supplies that do not sum to 0, are refused, and leave the book as it was.
    pub fn settle<C: Cost>(&mut self, costs: &[C]) -> Result<Amounts, SheetFault>
        ensures outcome { Settles (book_of self.old) (map C.Cost.meaning costs.now) (book_of self.new) result }
        ensures exactly { length costs.now ≡ length (book_of self.old).arcs → EqualWhenBest (network_of (book_of self.old) (map C.Cost.meaning costs.now)) }
        ensures refuses { settle_refusal (book_of self.old).nodes (book_of self.old).arcs (length costs.now) ≡ None → (is_ok result ≡ false) ↔ (Feasible (network_of (book_of self.old) (map C.Cost.meaning costs.now)) → ⊥) }
    {
        check_settling(&self.graph(), costs.len())?;
        if let Err(NoRouting) = self.search(costs) {
            self.stand(Event::Bar);
            return Err(SheetFault::Barred(count_marked(self.graph().nodes)));
        }
        self.stand(Event::Settle);
        let graph = self.graph();
        let charge = charge_carried(graph.arcs, costs);
        let floor = floor_held(&graph, costs);
        Ok(Amounts { charge, floor })
    }
}
