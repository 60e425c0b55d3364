// What settling says of a network, beside what trying every routing says.
use crate::routings::{charge_met, cheapest};
use crate::trials::Trial;
use arrayvec::ArrayVec;
use cost::costs::Cost;
use ledger::faults::SheetFault;
use ledger::settling::Amounts;
use std::alloc::{AllocError, Global};

// The most nodes or arcs that a network has.
const MOST: usize = 5;

#[derive(Clone, Copy)]
pub(crate) enum Outcome {
    Settled,
    Barred,
    Unbalanced,
    Differs,
}

// What a sheet answers for each number from 1 to a count; absent where it refuses one of them.
fn answers<F: Fn(i64) -> Result<i64, SheetFault>>(
    count: usize,
    answer: F,
) -> Option<ArrayVec<i64, MOST>>
    requires { F.IsAlwaysCallable answer }
{
    let mut answers = ArrayVec::new();
    for number in (1i64..).take(count) {
        answers.try_push(answer(number).ok()?).ok()?;
    }
    Some(answers)
}

impl<C: Cost> Trial<C> {
    // Whether the loads are a routing that meets the network at the charge, and the prices have it for their floor.
    fn is_carried(&self, charge: i64) -> bool {
        let costs = self.costs.as_slice();
        let loads = answers(self.network.arcs.len(), |arc| self.sheet.load_of(arc));
        let prices = answers(
            self.network.supplies.len(),
            |node| self.sheet.price_of(node),
        );
        match (loads, prices) {
            (Some(loads), Some(prices)) => {
                charge_met(&self.network, costs, loads.as_slice()) == Some(charge)
                    && self.sheet.floor(costs, prices.as_slice()).ok() == Some(charge)
            }
            _ => false,
        }
    }

    // Whether a node is marked; only a barred sheet has marks.
    fn is_marked(&self, node: i64) -> bool {
        self.sheet.mark_of(node).unwrap_or(false)
    }

    // Whether as many nodes as told are marked, and their supplies sum to more than may leave them.
    fn is_over_full(&self, count: usize) -> bool {
        let mut marked = 0usize;
        let mut excess = 0i64;
        for (supply, node) in self.network.supplies.iter().zip(1i64..) {
            if self.is_marked(node) {
                marked = marked.saturating_add(1);
                excess = excess.wrapping_add(*supply);
            }
        }
        for ((tail, head), cost) in self.network.arcs.iter().zip(self.costs.iter()) {
            match (self.is_marked(*tail), self.is_marked(*head)) {
                (true, false) => excess = excess.wrapping_sub(cost.last_load()),
                (false, true) => excess = excess.wrapping_add(cost.first_load()),
                _ => {}
            }
        }
        marked == count && excess > 0
    }

    // The outcome that is right, if the answer tells it.
    fn outcome_of(&self, answer: Result<Amounts, SheetFault>, best: Option<i64>) -> Outcome {
        match (answer, best) {
            (Ok(amounts), Some(charge))
                if amounts.charge == charge && amounts.floor == charge && self.is_carried(charge) =>
                { Outcome::Settled }
            (Err(SheetFault::Unbalanced), None) if self.network.total() != 0 => Outcome::Unbalanced,
            (Err(SheetFault::Barred(count)), None)
                if self.network.total() == 0 && self.is_over_full(count) => { Outcome::Barred }
            _ => Outcome::Differs,
        }
    }

    // Settles the sheet and tries every routing; answers the outcome, and how many routings meet the network.
    pub(crate) fn compare(&mut self, heap: Global) -> Result<(Outcome, u64), AllocError> {
        let (best, met) = cheapest(heap, &self.network, self.costs.as_slice())?;
        let answer = self.sheet.settle(self.costs.as_slice());
        Ok((self.outcome_of(answer, best), met))
    }
}
