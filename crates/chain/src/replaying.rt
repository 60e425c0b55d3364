// Making the calls of a chain.
ghost use Rattle.std.specs.Prelude.{◌≡◌, map, length};
ghost use Rattle.sheet.specs.Sheets.{book_of};
ghost use Rattle.ledger.specs.Books.{network_of};
ghost use Rattle.ledger.specs.Settling.{settle_refusal, Answers};
ghost use Rattle.chain.specs.Chains.{Replayed};
ghost use Rattle.chain.specs.Steps.{Step};

use crate::calls::{Call, Progress, Report};
use cost::costs::Cost;
use ledger::faults::SheetFault;
use ledger::settling::Amounts;
use sheet::sheets::Sheet;

// What settle would answer for a book and costs; the book stays as it is.
pub fn preview<C: Cost>(sheet: &Sheet, costs: &[C]) -> Result<Amounts, SheetFault>
    ensures { Answers (settle_refusal (book_of sheet.now).nodes (book_of sheet.now).arcs (length costs.now)) (network_of (book_of sheet.now) (map C.Cost.meaning costs.now)) result }
{
    let mut copy = *sheet;
    copy.settle(costs)
}

// Makes one call of a chain.
fn make<C: Cost + Copy>(
    sheet: &mut Sheet,
    costs: &mut [C],
    call: &Call<C>,
    so_far: Progress,
) -> Progress
    ensures { Step C.Cost.meaning call.now (book_of sheet.old) costs.old (book_of sheet.new) costs.new so_far result }
{
    match *call {
        Call::Supply { node, amount } => {
            so_far.after_edit(call.kind(), sheet.supply(node, amount))
        }
        Call::Swap { arc, cost } => so_far.after_edit(call.kind(), sheet.swap(arc, cost, costs)),
        Call::Settle => so_far.after_settling(sheet.settle(costs)),
    }
}

// Makes the calls of a chain in turn on a book and its costs, and reports which accepted call came last and what settle answers for
// what the chain left. Supply, swap and settle are the only calls that change an opened book or its costs.
pub fn replay<C: Cost + Copy>(sheet: &mut Sheet, costs: &mut [C], calls: &[Call<C>]) -> Report
    ensures { Replayed C.Cost.meaning (record { book = book_of sheet.old; costs = costs.old }) calls.now (record { book = book_of sheet.new; costs = costs.new }) result }
{
    let mut so_far = Progress::default();
    for call in calls {
        so_far = make(sheet, costs, call, so_far);
    }
    let outlook = so_far.answer.unwrap_or_else(|| preview(sheet, costs));
    Report {
        last: so_far.last,
        outlook,
    }
}
