// The steps of a draft.
ghost use Rattle.std.specs.Prelude.{◌≡◌, pos, IfOk};
ghost use Rattle.std.specs.Option.{option_map};
ghost use Rattle.std.specs.Result.{result_err};
ghost use Rattle.cost.specs.Limits.{outside};
ghost use Rattle.cost.specs.Places.{kept_or};
ghost use Rattle.sheet.specs.Sheets.{book_of};
ghost use Rattle.sheet.specs.Drafts.{begun, drafted, feed_refusal, lay_refusal, sketch_of, with_arc, with_fed};
ghost use Rattle.ledger.specs.Limits.{size_limits};
ghost use Rattle.ledger.specs.declared.faults.DraftFault.TheVariants.{Number};

use crate::sheets::drafting::{Draft, Size};
use crate::sheets::lookups::place_of;
use crate::sheets::{MOST_ARCS, Sheet};
use ledger::faults::DraftFault;
pub use ledger::limits::SIZES;
use ledger::limits::SUPPLIES;
use ledger::standing::Standing;

impl TryFrom<i64> for Size {
    type Error = DraftFault;

    ghost try_from_gives = { λ count r. (result_err r ≡ option_map Number (outside size_limits 1 count)) × IfOk r (λ s. pos s.count ≡ count) };

    // Checks a node count.
    fn try_from(count: i64) -> Result<Size, DraftFault> {
        SIZES.check(count, 1)?;
        Ok(Size {
            count: count as usize,
        })
    }
}

// Checks a node count, as the conversion does: by its name it reads as a step of the draft.
pub fn size(count: i64) -> Result<Size, DraftFault>
    ensures answer { result_err result ≡ option_map Number (outside size_limits 1 count) }
    ensures count { IfOk result (λ s. pos s.count ≡ count) }
{
    Size::try_from(count)
}

impl Draft {
    // A draft of a book with so many nodes.
    pub fn new(size: Size) -> Draft
        ensures { sketch_of result ≡ begun size.count }
    {
        Draft {
            book: Sheet::of_nodes(size.count),
            fed: 0,
        }
    }

    // Gives the next node its supply.
    pub fn feed(&mut self, supply: i64) -> Result<(), DraftFault>
        ensures answer { result_err result ≡ feed_refusal (sketch_of self.old) supply }
        ensures after { sketch_of self.new ≡ kept_or (sketch_of self.old) (feed_refusal (sketch_of self.old) supply) (with_fed (sketch_of self.old) supply) }
    {
        SUPPLIES.check(supply, 1)?;
        if self.fed >= self.book.node_count {
            return Err(DraftFault::Full(self.book.node_count));
        }
        self.book.put_supply(self.fed, supply);
        self.fed += 1;
        Ok(())
    }

    // Lays the next arc, from its tail to its head.
    pub fn lay(&mut self, tail: i64, head: i64) -> Result<(), DraftFault>
        ensures answer { result_err result ≡ lay_refusal (sketch_of self.old) tail head }
        ensures after { sketch_of self.new ≡ kept_or (sketch_of self.old) (lay_refusal (sketch_of self.old) tail head) (with_arc (sketch_of self.old) tail head) }
    {
        let laid = self.book.arc_count;
        if laid >= MOST_ARCS {
            return Err(DraftFault::Full(MOST_ARCS));
        }
        let nodes = self.book.node_count;
        let from = place_of(tail, nodes).ok_or(DraftFault::Unknown(1))?;
        let to = place_of(head, nodes).ok_or(DraftFault::Unknown(2))?;
        if from == to {
            return Err(DraftFault::Loop(laid + 1));
        }
        self.book.push_arc(from, to);
        Ok(())
    }

    // Fills a sheet with the book of the draft.
    pub fn open(self, sheet: &mut Sheet)
        ensures { book_of sheet.new ≡ drafted (sketch_of self) }
    {
        *sheet = self.book;
        sheet.standing = Standing::Open;
    }
}
