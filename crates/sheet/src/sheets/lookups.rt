// What a sheet answers when something is looked up in it.
ghost use Rattle.std.specs.Prelude.{◌≡◌, ◌≤◌, [], length, replicate, Ok, slice_index_or};
ghost use Rattle.network.specs.Records.{no_arc, no_node};
ghost use Rattle.sheet.specs.Sheets.{book_of};
ghost use Rattle.ledger.specs.Books.{blank_book};
ghost use Rattle.ledger.specs.Lookups.{at_number, ends_at, load_at, mark_at, place_in, price_at, supply_at};
ghost use Rattle.ledger.specs.declared.standing.Standing.TheVariants.{Open};

use crate::sheets::{MOST_ARCS, MOST_NODES, Sheet, Table};
use ledger::faults::SheetFault;
use ledger::standing::{Event, Standing};
use network::records::{Arc, Node};

// The place, from 0, of what has this number, from 1, among `count`.
pub(crate) fn place_of(number: i64, count: usize) -> Option<usize>
    ensures { result ≡ place_in count number }
{
    let place = usize::try_from(number).ok()?.checked_sub(1)?;
    if place < count { Some(place) } else { None }
}

// The place, from 0, of what has this number, the first of its call, among `count`; refused where nothing has it.
pub(crate) fn place_among(number: i64, count: usize) -> Result<usize, SheetFault>
    ensures { result ≡ at_number (place_in count number) Ok }
{
    place_of(number, count).ok_or(SheetFault::Unknown(1))
}

// What is known of a node or an arc, by its number.
fn numbered<T: Copy>(records: &[T], number: i64) -> Result<T, SheetFault>
    ensures { (other : T) → result ≡ at_number (place_in (length records.now) number) (λ k. Ok (slice_index_or records.now k other)) }
{
    let place = place_among(number, records.len())?;
    Ok(records[place])
}

impl Sheet {
    // A sheet of so many nodes, whose supplies are 0, and of no arcs.
    pub(crate) fn of_nodes(count: usize) -> Sheet
        requires { count ≤ 64 }
        ensures { book_of result ≡ record { nodes = replicate count no_node; arcs = []; standing = Open } }
    {
        Sheet {
            node_count: count,
            arc_count: 0,
            table: Table {
                nodes: [Node::default(); MOST_NODES],
                arcs: [Arc::default(); MOST_ARCS],
            },
            standing: Standing::Open,
        }
    }

    // A sheet with neither nodes nor arcs.
    pub fn blank() -> Sheet
        ensures { book_of result ≡ blank_book }
    {
        Sheet::of_nodes(0)
    }

    pub fn node_count(&self) -> usize
        ensures { result ≡ length (book_of self.now).nodes }
    {
        self.node_count
    }

    pub fn arc_count(&self) -> usize
        ensures { result ≡ length (book_of self.now).arcs }
    {
        self.arc_count
    }

    pub fn stands(&self) -> Standing
        ensures { result ≡ (book_of self.now).standing }
    {
        self.standing
    }

    // What is known of a node, by its number.
    fn node(&self, number: i64) -> Result<Node, SheetFault>
        ensures { result ≡ at_number (place_in (length (book_of self.now).nodes) number) (λ v. Ok (slice_index_or (book_of self.now).nodes v no_node)) }
    {
        numbered(self.graph().nodes, number)
    }

    // What is known of an arc, by its number.
    fn arc(&self, number: i64) -> Result<Arc, SheetFault>
        ensures { result ≡ at_number (place_in (length (book_of self.now).arcs) number) (λ a. Ok (slice_index_or (book_of self.now).arcs a no_arc)) }
    {
        numbered(self.graph().arcs, number)
    }

    // The supply of a node.
    pub fn supply_of(&self, node: i64) -> Result<i64, SheetFault>
        ensures { result ≡ supply_at (book_of self.now) node }
    {
        let node = self.node(node)?;
        Ok(node.supply)
    }

    // The ends of an arc, as the numbers of its nodes.
    pub fn ends_of(&self, arc: i64) -> Result<(usize, usize), SheetFault>
        ensures { result ≡ ends_at (book_of self.now) arc }
    {
        let arc = self.arc(arc)?;
        Ok((arc.tail + 1, arc.head + 1))
    }

    // Three promises of three lines each: they differ in what is numbered, in what is read of it, and in when.

    // The load of an arc, while settled.
    pub fn load_of(&self, arc: i64) -> Result<i64, SheetFault>
        ensures { result ≡ load_at (book_of self.now) arc }
    {
        let arc = self.arc(arc)?;
        self.stands().check(Event::ReadRouting)?;
        Ok(arc.load)
    }

    // The price of a node, while settled.
    pub fn price_of(&self, node: i64) -> Result<i64, SheetFault>
        ensures { result ≡ price_at (book_of self.now) node }
    {
        let node = self.node(node)?;
        self.stands().check(Event::ReadRouting)?;
        Ok(node.price)
    }

    // Whether a node is marked, while barred.
    pub fn mark_of(&self, node: i64) -> Result<bool, SheetFault>
        ensures { result ≡ mark_at (book_of self.now) node }
    {
        let node = self.node(node)?;
        self.stands().check(Event::ReadMarks)?;
        Ok(node.marked)
    }
}
