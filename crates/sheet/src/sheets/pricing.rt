// What loads are charged and what prices promise, for the book of a sheet.
ghost use Rattle.std.specs.Prelude.{◌≡◌, true, map, ◌≤ℤ◌, IfOk, Ok, Decides};
ghost use Rattle.std.specs.Result.{result_err};
ghost use Rattle.cost.specs.Places.{or_else};
ghost use Rattle.network.specs.Network.{charge, floor, Cheapest, Highest};
ghost use Rattle.network.specs.Records.{numbers};
ghost use Rattle.sheet.specs.Sheets.{book_of};
ghost use Rattle.ledger.specs.Books.{network_of};
ghost use Rattle.ledger.specs.Calls.{charge_answer, floor_answer};

use crate::sheets::Sheet;
use cost::costs::Cost;
use ledger::faults::SheetFault;
pub use ledger::pricing::PRICES;
use ledger::pricing::{charged, floored};
use network::graph::Graph;

impl Sheet {
    // The nodes and arcs of the sheet, as a network.
    pub(crate) fn graph(&self) -> Graph<'_>
        ensures nodes { result.nodes.now ≡ (book_of self.now).nodes }
        ensures arcs { result.arcs.now ≡ (book_of self.now).arcs }
    {
        Graph::of(
            &self.table.nodes[0..self.node_count],
            &self.table.arcs[0..self.arc_count],
        )
    }

    // The charge of a routing that meets the network.
    pub fn charge<C: Cost>(&self, costs: &[C], loads: &[i64]) -> Result<i64, SheetFault>
        ensures { result ≡ charge_answer (book_of self.now) (map C.Cost.meaning costs.now) loads.now }
    {
        charged(&self.graph(), costs, loads)
    }

    // The floor of prices: no routing that meets the network is charged less.
    pub fn floor<C: Cost>(&self, costs: &[C], prices: &[i64]) -> Result<i64, SheetFault>
        ensures { result ≡ floor_answer (book_of self.now) (map C.Cost.meaning costs.now) prices.now }
    {
        floored(&self.graph(), costs, prices)
    }

    // The floor of prices and the charge of a routing that meets the network; the floor is at most the charge.
    pub fn floor_and_charge<C: Cost>(
        &self,
        costs: &[C],
        loads: &[i64],
        prices: &[i64],
    ) -> Result<(i64, i64), SheetFault>
        ensures floor { IfOk result (λ both. Ok both.0 ≡ floor_answer (book_of self.now) (map C.Cost.meaning costs.now) prices.now) }
        ensures charge { IfOk result (λ both. Ok both.1 ≡ charge_answer (book_of self.now) (map C.Cost.meaning costs.now) loads.now) }
        ensures refusal { result_err result ≡ or_else (result_err (charge_answer (book_of self.now) (map C.Cost.meaning costs.now) loads.now)) (result_err (floor_answer (book_of self.now) (map C.Cost.meaning costs.now) prices.now)) }
        ensures duality { IfOk result (λ both. both.0 ≤ℤ both.1) }
    {
        let charge = self.charge(costs, loads)?;
        let floor = self.floor(costs, prices)?;
        Ok((floor, charge))
    }

    // Whether the floor of the prices equals the charge of the loads. If it does, no routing that meets the network is
    // charged less, and no prices have a higher floor.
    pub fn is_cheapest<C: Cost>(
        &self,
        costs: &[C],
        loads: &[i64],
        prices: &[i64],
    ) -> Result<bool, SheetFault>
        ensures refusal { result_err result ≡ or_else (result_err (charge_answer (book_of self.now) (map C.Cost.meaning costs.now) loads.now)) (result_err (floor_answer (book_of self.now) (map C.Cost.meaning costs.now) prices.now)) }
        ensures equal { IfOk result (λ equal. Decides equal (floor (network_of (book_of self.now) (map C.Cost.meaning costs.now)) (numbers prices.now) ≡ charge (network_of (book_of self.now) (map C.Cost.meaning costs.now)) (numbers loads.now))) }
        ensures best { IfOk result (λ equal. equal ≡ true → Cheapest (network_of (book_of self.now) (map C.Cost.meaning costs.now)) (numbers loads.now) × Highest (network_of (book_of self.now) (map C.Cost.meaning costs.now)) (numbers prices.now)) }
    {
        let (floor, charge) = self.floor_and_charge(costs, loads, prices)?;
        Ok(floor == charge)
    }
}
