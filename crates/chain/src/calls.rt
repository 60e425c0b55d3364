// The calls of a chain, and what is known as it goes on.
ghost use Rattle.std.specs.Prelude.{◌≡◌};
ghost use Rattle.std.specs.Result.{result_err};
ghost use Rattle.cost.specs.Places.{kept_or};
ghost use Rattle.chain.specs.Chains.{kind_of};
ghost use Rattle.chain.specs.Steps.{after_edit, after_settling};

use ledger::faults::SheetFault;
use ledger::settling::Amounts;

// A call that may change an opened book or its costs.
#[derive(Clone, Copy, Debug)]
pub enum Call<C> {
    Supply { node: i64, amount: i64 },
    Swap { arc: i64, cost: C },
    Settle,
}

// Which of the three calls it was.
#[derive(Clone, Copy, Debug, PartialEq, Eq)]
pub enum Kind {
    Supply,
    Swap,
    Settle,
}

impl<C> Call<C> {
    // Which of the three calls it is.
    pub fn kind(&self) -> Kind
        ensures { result ≡ kind_of self.now }
    {
        match self {
            Call::Supply { .. } => Kind::Supply,
            Call::Swap { .. } => Kind::Swap,
            Call::Settle => Kind::Settle,
        }
    }
}

// Which accepted call came last, and what settle answered since the last edit that was accepted, if it was called since.
#[derive(Clone, Copy, Debug, Default)]
pub struct Progress {
    pub last: Option<Kind>,
    pub answer: Option<Result<Amounts, SheetFault>>,
}

impl Progress {
    // After an edit: if it was accepted it came last, and nothing is known of settling.
    pub(crate) fn after_edit(self, kind: Kind, edit: Result<(), SheetFault>) -> Progress
        ensures { result ≡ kept_or self (result_err edit) (after_edit kind) }
    {
        match edit {
            Ok(()) => Progress {
                last: Some(kind),
                answer: None,
            },
            Err(_) => self,
        }
    }

    // After a settling its answer is known, and if it was accepted it came last.
    pub(crate) fn after_settling(self, answer: Result<Amounts, SheetFault>) -> Progress
        ensures { result ≡ after_settling self answer }
    {
        Progress {
            last: if answer.is_ok() {
                Some(Kind::Settle)
            } else {
                self.last
            },
            answer: Some(answer),
        }
    }
}

// What a chain comes to: which accepted call came last, and what settle answers for the book and the costs as the chain left them.
#[derive(Clone, Copy, Debug)]
pub struct Report {
    pub last: Option<Kind>,
    pub outlook: Result<Amounts, SheetFault>,
}
