// How a sheet stands, and what moves it.
ghost use Rattle.std.specs.Prelude.{◌≡◌};
ghost use Rattle.std.specs.Result.{result_err};
ghost use Rattle.ledger.specs.Standings.{moved, unread};

use crate::faults::SheetFault;

// A sheet stands open from its drafting and from each edit on, and settled or barred by the last settling.
#[derive(Clone, Copy, Debug, PartialEq, Eq)]
pub enum Standing {
    Open,
    Settled,
    Barred,
}

// What a call does to a sheet: it edits; it settles, with a routing or with the set that bars one; it reads loads and prices, or
// marks.
#[derive(Clone, Copy, Debug, PartialEq, Eq)]
pub enum Event {
    Edit,
    Settle,
    Bar,
    ReadRouting,
    ReadMarks,
}

impl Standing {
    // Refuses an event that the standing does not allow: a routing is read only while settled, and marks only while barred.
    pub fn check(self, event: Event) -> Result<(), SheetFault>
        ensures { result_err result ≡ unread event self }
    {
        match (event, self) {
            (Event::Edit | Event::Settle | Event::Bar, _) => Ok(()),
            (Event::ReadRouting, Standing::Settled) => Ok(()),
            (Event::ReadMarks, Standing::Barred) => Ok(()),
            (Event::ReadRouting | Event::ReadMarks, _) => Err(SheetFault::Unread),
        }
    }

    // Moves the standing by an event, or refuses the event and leaves the standing.
    pub fn meet(&mut self, event: Event) -> Result<(), SheetFault>
        ensures answer { result_err result ≡ unread event self.old }
        ensures after { self.new ≡ moved event self.old }
    {
        match (*self, event) {
            (_, Event::Edit) => *self = Standing::Open,
            (_, Event::Settle) => *self = Standing::Settled,
            (_, Event::Bar) => *self = Standing::Barred,
            (Standing::Settled, Event::ReadRouting) | (Standing::Barred, Event::ReadMarks) => {}
            (_, Event::ReadRouting | Event::ReadMarks) => return Err(SheetFault::Unread),
        }
        Ok(())
    }
}
