// What prices promise: no routing that meets the network is charged less than their floor.
ghost use Rattle.std.specs.Prelude.{◌≡◌, ◌<◌, map, length, pos, negsuc, ◌-ℤ◌, ◌*ℤ◌, ◌≤ℤ◌};
ghost use Rattle.cost.specs.Meaning.{Between};
ghost use Rattle.network.specs.Network.{Meets, charge, least, floor};
ghost use Rattle.network.specs.Graphs.{net_in};
ghost use Rattle.network.specs.Records.{numbers, Within, Ranged};

use crate::charge::charge_of;
use crate::graph::Graph;
use crate::records::{Arc, Node};
use cost::costs::Cost;

// The least, over the range, of the amount at a load less the tension times the load. The increments never fall, so the
// walk up from the first load may end where the next increment is not below the tension.
pub fn least_of<C: Cost>(cost: &C, tension: i64) -> i64
    requires { Between (negsuc 199999999) (pos 200000000) tension }
    ensures { result ≡ least (C.Cost.meaning cost.now) tension }
{
    let first = cost.first_load();
    let mut reduced = cost.opening_amount() - tension * first;
    for load in first..cost.last_load() {
        let increment = cost.increment_at(load).unwrap();
        if increment >= tension {
            return reduced;
        }
        reduced += increment - tension;
    }
    reduced
}

impl Node {
    // What the supply is worth at a price.
    fn worth(&self, price: i64) -> i64
        requires supplies { Between (negsuc 99999) (pos 100000) self.now.supply }
        requires limits { Between (negsuc 99999999) (pos 100000000) price }
        ensures { result ≡ self.now.supply *ℤ price }
    {
        self.supply * price
    }
}

impl Arc {
    // The price of the tail less the price of the head.
    pub fn tension(&self, prices: &[i64]) -> i64
        requires tail { self.now.tail < length prices.now }
        requires head { self.now.head < length prices.now }
        requires limits { Between (negsuc 999999999999999) (pos 1000000000000000) (numbers prices.now self.now.tail) × Between (negsuc 999999999999999) (pos 1000000000000000) (numbers prices.now self.now.head) }
        ensures { result ≡ numbers prices.now self.now.tail -ℤ numbers prices.now self.now.head }
    {
        prices[self.tail] - prices[self.head]
    }
}

impl Graph<'_> {
    // The supplies times their prices, and the least reduced amounts of the arcs at their tensions, summed.
    pub fn floor_of<C: Cost>(&self, costs: &[C], prices: &[i64]) -> i64
        requires costed { length costs.now ≡ length self.now.arcs.now }
        requires priced { length prices.now ≡ length self.now.nodes.now }
        requires limits { Within 100000000 prices.now }
        ensures { result ≡ floor (net_in self.now (map C.Cost.meaning costs.now)) (numbers prices.now) }
    {
        let mut floor = 0;
        for (node, price) in self.nodes.iter().zip(prices) {
            floor += node.worth(*price);
        }
        for (arc, cost) in self.arcs.iter().zip(costs) {
            floor += least_of(cost, arc.tension(prices));
        }
        floor
    }

    // The floor of the prices and the charge of the loads. Where the loads meet the network, the floor is at most the charge.
    pub fn floor_and_charge<C: Cost>(
        &self,
        costs: &[C],
        loads: &[i64],
        prices: &[i64],
    ) -> (i64, i64)
        requires costed { length costs.now ≡ length self.now.arcs.now }
        requires loaded { length loads.now ≡ length self.now.arcs.now }
        requires ranges { Ranged (map C.Cost.meaning costs.now) loads.now }
        requires priced { length prices.now ≡ length self.now.nodes.now }
        requires limits { Within 100000000 prices.now }
        ensures promised { result.0 ≡ floor (net_in self.now (map C.Cost.meaning costs.now)) (numbers prices.now) }
        ensures charged { result.1 ≡ charge (net_in self.now (map C.Cost.meaning costs.now)) (numbers loads.now) }
        ensures duality { Meets (net_in self.now (map C.Cost.meaning costs.now)) (numbers loads.now) → result.0 ≤ℤ result.1 }
    {
        let floor = self.floor_of(costs, prices);
        let charge = charge_of(costs, loads);
        (floor, charge)
    }
}
