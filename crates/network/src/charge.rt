// What loads are charged.
ghost use Rattle.std.specs.Prelude.{◌≡◌, ◌≤◌, map, length};
ghost use Rattle.network.specs.Records.{Ranged, amounts};

use crate::records::MOST_ARCS;
use cost::costs::{Cost, amount_at};

// The amounts of the costs at their loads, summed. Every arc counts, one at its first load with its opening amount.
pub fn charge_of<C: Cost>(costs: &[C], loads: &[i64]) -> i64
    requires loaded { length loads.now ≡ length costs.now }
    requires limit { length loads.now ≤ MOST_ARCS }
    requires ranges { Ranged (map C.Cost.meaning costs.now) loads.now }
    ensures { result ≡ amounts (map C.Cost.meaning costs.now) loads.now }
{
    let mut charge = 0;
    for (cost, load) in costs.iter().zip(loads) {
        charge += amount_at(cost, *load).unwrap();
    }
    charge
}
