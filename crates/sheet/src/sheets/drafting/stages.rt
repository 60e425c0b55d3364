// The stages of a draft over the sheet that it will fill: first supplies are fed, then arcs are laid. The sheet is blank from
// the beginning of the draft on, and stays so where a stage is let go.
ghost use Rattle.std.specs.Prelude.{◌≡◌};
ghost use Rattle.std.specs.Result.{result_err};
ghost use Rattle.cost.specs.Places.{kept_or};
ghost use Rattle.sheet.specs.Sheets.{book_of};
ghost use Rattle.ledger.specs.Books.{blank_book};
ghost use Rattle.sheet.specs.Drafts.{begun, drafted, feed_refusal, lay_refusal, sketch_of, with_arc, with_fed};

use crate::sheets::Sheet;
use crate::sheets::drafting::{Draft, Size};
use ledger::faults::DraftFault;

// Two types of the same fields, so that no supply is fed after the turn.

// The stage in which nodes get their supplies.
#[derive(Drop)]
pub struct Feeding<'a> {
    sheet: &'a mut Sheet,
    draft: Draft,
}

// The stage in which arcs are laid.
#[derive(Drop)]
pub struct Laying<'a> {
    sheet: &'a mut Sheet,
    draft: Draft,
}

// Makes the sheet blank, and begins a draft of a book with so many nodes.
pub fn begin(sheet: &mut Sheet, size: Size) -> Feeding<'_>
    ensures same { result.sheet.ghost_name ≡ sheet.entry.ghost_name }
    ensures blank { book_of result.sheet.now ≡ blank_book }
    ensures begun { sketch_of result.draft ≡ begun size.count }
{
    *sheet = Sheet::blank();
    Feeding {
        sheet,
        draft: Draft::new(size),
    }
}

impl<'a> Feeding<'a> {
    // Gives the next node its supply; supplies that are not fed are 0.
    pub fn feed(&mut self, supply: i64) -> Result<(), DraftFault>
        ensures answer { result_err result ≡ feed_refusal (sketch_of self.old.draft) supply }
        ensures after { sketch_of self.new.draft ≡ kept_or (sketch_of self.old.draft) (feed_refusal (sketch_of self.old.draft) supply) (with_fed (sketch_of self.old.draft) supply) }
        ensures same { self.new.sheet.ghost_name ≡ self.old.sheet.ghost_name }
        ensures kept { self.new.sheet.now ≡ self.old.sheet.now }
    {
        self.draft.feed(supply)
    }

    // Ends the feeding.
    pub fn turn(self) -> Laying<'a>
        ensures same { result.sheet.ghost_name ≡ self.entry.sheet.ghost_name }
        ensures sheet { result.sheet.now ≡ self.entry.sheet.now }
        ensures draft { result.draft ≡ self.entry.draft }
    {
        let Feeding { sheet, draft } = self;
        Laying { sheet, draft }
    }
}

impl Laying<'_> {
    // Joins two different nodes by a further arc, even where one joins them already.
    pub fn lay(&mut self, tail: i64, head: i64) -> Result<(), DraftFault>
        ensures answer { result_err result ≡ lay_refusal (sketch_of self.old.draft) tail head }
        ensures after { sketch_of self.new.draft ≡ kept_or (sketch_of self.old.draft) (lay_refusal (sketch_of self.old.draft) tail head) (with_arc (sketch_of self.old.draft) tail head) }
        ensures same { self.new.sheet.ghost_name ≡ self.old.sheet.ghost_name }
        ensures kept { self.new.sheet.now ≡ self.old.sheet.now }
    {
        self.draft.lay(tail, head)
    }

    // Ends the draft: the sheet is a book.
    pub fn open(self)
        ensures { book_of self.exit.0.now ≡ drafted (sketch_of self.entry.draft) }
    {
        let Laying { sheet, draft } = self;
        draft.open(sheet);
    }
}
