// What loads are charged and what prices promise, for nodes and arcs of a book.
ghost use Rattle.std.specs.Prelude.{◌≡◌, ◌&&◌, map, Ok, ◌==◌};
ghost use Rattle.std.specs.Result.{result_err};
ghost use Rattle.cost.specs.Places.{unless};
ghost use Rattle.network.specs.Network.{charge, floor};
ghost use Rattle.network.specs.Graphs.{net_in};
ghost use Rattle.network.specs.Records.{numbers};
ghost use Rattle.ledger.specs.Calls.{charge_refusal, floor_refusal, needed};
ghost use Rattle.ledger.specs.declared.faults.SheetFault.TheVariants.{List};

use crate::faults::SheetFault;
pub use crate::limits::PRICES;
use cost::costs::Cost;
use cost::numbers::NumberFault;
use network::charge::charge_of;
use network::graph::Graph;
use network::routing::first_out_of_range;

// Refuses another number of costs, loads or prices than there is to be.
pub fn check_count(given: usize, wanted: usize) -> Result<(), SheetFault>
    ensures { result_err result ≡ needed (given == wanted) List }
{
    if given == wanted {
        Ok(())
    } else {
        Err(SheetFault::List)
    }
}

// Refuses another number of costs than there are arcs, and another number of loads or prices than there are to be.
pub fn check_lists(
    costs: usize,
    arcs: usize,
    numbers: usize,
    count: usize,
) -> Result<(), SheetFault>
    ensures { result_err result ≡ needed (costs == arcs && numbers == count) List }
{
    check_count(costs, arcs)?;
    check_count(numbers, count)
}

// The charge of a routing that meets the network of these nodes and arcs.
pub fn charged<C: Cost>(graph: &Graph<'_>, costs: &[C], loads: &[i64]) -> Result<i64, SheetFault>
    ensures { result ≡ unless (charge_refusal graph.now.nodes.now graph.now.arcs.now (map C.Cost.meaning costs.now) loads.now) (charge (net_in graph.now (map C.Cost.meaning costs.now)) (numbers loads.now)) }
{
    let arcs = graph.arcs.len();
    check_lists(costs.len(), arcs, loads.len(), arcs)?;
    if let Some(arc) = first_out_of_range(costs, loads) {
        return Err(SheetFault::Range(arc));
    }
    if let Some(node) = graph.first_unmet(loads) {
        return Err(SheetFault::Surplus(node));
    }
    Ok(charge_of(costs, loads))
}

// The floor of prices under the network of these nodes and arcs.
pub fn floored<C: Cost>(graph: &Graph<'_>, costs: &[C], prices: &[i64]) -> Result<i64, SheetFault>
    ensures { result ≡ unless (floor_refusal graph.now.nodes.now graph.now.arcs.now (map C.Cost.meaning costs.now) prices.now) (floor (net_in graph.now (map C.Cost.meaning costs.now)) (numbers prices.now)) }
{
    let nodes = graph.nodes.len();
    let arcs = graph.arcs.len();
    check_lists(costs.len(), arcs, prices.len(), nodes)?;
    if let Some(node) = PRICES.first_outside(prices) {
        return Err(SheetFault::Number(NumberFault::Outside(node)));
    }
    Ok(graph.floor_of(costs, prices))
}
