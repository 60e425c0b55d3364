// Every routing of a small network. Reckoned apart from the router, which it checks.
ghost use Rattle.std.specs.Prelude.{pos, ◌≤ℤ◌};

use crate::networks::Network;
use cost::costs::{Cost, amount_at};
use std::alloc::{AllocError, Global};

// The loads that an arc may have, from the first to the last.
#[derive(Clone, Copy)]
struct Range {
    first: i64,
    last: i64,
}

impl Range {
    // The loads of a cost.
    fn of<C: Cost>(cost: &C) -> Range {
        Range {
            first: cost.first_load(),
            last: cost.last_load(),
        }
    }

    // How many loads there are; at least one.
    fn count(self) -> i64
        ensures { pos 1 ≤ℤ result }
    {
        self.last.wrapping_sub(self.first).wrapping_add(1).max(1)
    }
}

// In how many ways the arcs can be loaded.
fn ways(ranges: &[Range]) -> i64 {
    ranges
        .iter()
        .fold(1i64, |ways, range| ways.wrapping_mul(range.count()))
}

// Writes the loads of one way, of which the first arc's differ soonest.
fn write_loads(way: i64, ranges: &[Range], loads: &mut [i64]) {
    let mut rest = way;
    for (load, range) in loads.iter_mut().zip(ranges) {
        *load = range.first.wrapping_add(rest % range.count());
        rest /= range.count();
    }
}

// The sum of the amounts at loads; absent where one lies outside its range.
fn charge_at<C: Cost>(costs: &[C], loads: &[i64]) -> Option<i64> {
    let mut charge = 0i64;
    for (cost, load) in costs.iter().zip(loads) {
        charge = charge.wrapping_add(amount_at(cost, *load)?);
    }
    Some(charge)
}

// The charge of loads; absent where they do not meet the network or one lies outside its range.
pub(crate) fn charge_met<C: Cost>(network: &Network, costs: &[C], loads: &[i64]) -> Option<i64> {
    if network.is_met(loads) {
        charge_at(costs, loads)
    } else {
        None
    }
}

// The least charge of all routings that meet the network, and how many meet it.
pub(crate) fn cheapest<C: Cost>(
    heap: Global,
    network: &Network,
    costs: &[C],
) -> Result<(Option<i64>, u64), AllocError> {
    let ranges: Vec<Range> = costs.iter().map(|cost| Range::of(cost)).collect(heap)?;
    let mut loads: Vec<i64> = vec![in heap; 0; costs.len()]?;
    let mut best: Option<i64> = None;
    let mut met = 0u64;
    for way in 0..ways(ranges.as_slice()) {
        write_loads(way, ranges.as_slice(), loads.as_mut_slice());
        if let Some(charge) = charge_met(network, costs, loads.as_slice()) {
            best = Some(best.map_or(charge, |least| least.min(charge)));
            met = met.saturating_add(1);
        }
    }
    Ok((best, met))
}
