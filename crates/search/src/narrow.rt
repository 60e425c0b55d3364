// The loads of each arc that are slack near its tension.
ghost use Rattle.std.specs.Prelude.{◌≡◌, ℕ, ◌<◌, ◌≤◌, true, false, map, length, pos, negsuc, ◌+ℤ◌, ◌-ℤ◌, ◌≤ℤ◌, ◌<ℤ◌};
ghost use Rattle.std.specs.Fn.{FnReturnsAt};
ghost use Rattle.cost.specs.Meaning.{Between, last};
ghost use Rattle.network.specs.Records.{numbers, cost_of};
ghost use Rattle.flow.specs.Spans.{low_of, high_of};
ghost use Rattle.search.specs.Spans.{HeldIn};
ghost use Rattle.search.specs.Turns.{Turns, PassingBetween, Narrow, NarrowedWhere, Narrowed};
ghost use Rattle.search.specs.Prices.{Modest};
ghost use Rattle.search.specs.Settled.{arc_at};

use crate::networks::Network;
use cost::costs::Cost;
use cost::numbers::LOADS;
use flow::spans::Span;
use network::records::Arc;

// A number half way between two.
fn between(low: i64, high: i64) -> i64
    requires from { pos 0 ≤ℤ low }
    requires order { low <ℤ high }
    requires to { high ≤ℤ pos 10000 }
    ensures { (low ≤ℤ result) × (result <ℤ high) }
{
    (low + high) / 2
}

// The load at which the increments of a cost pass a bar.
fn turn<C: Cost>(cost: &C, bar: i64) -> i64
    ensures { Turns (C.Cost.meaning cost.now) bar result }
{
    // The increments are asked of a cost and lie in no slice, so no search of the library finds the load.
    let mut low = cost.first_load();
    let mut high = cost.last_load();
    while low < high {
        let middle = between(low, high);
        if cost.increment_at(middle).unwrap() < bar {
            low = middle + 1;
        } else {
            high = middle;
        }
    }
    low
}

// Whether an increment below a bar, if any, is followed by one that is not below it, if any. Two absent increments tell nothing.
fn pass_between(before: Option<i64>, after: Option<i64>, bar: i64) -> bool
    ensures { result ≡ true → PassingBetween before after bar }
{
    match (before, after) {
        (Some(last), Some(next)) => last < bar && bar <= next,
        (Some(last), None) => last < bar,
        (None, Some(next)) => bar <= next,
        (None, None) => false,
    }
}

// Whether two increments show that those of a cost pass a bar at a load.
fn turns_at<C: Cost>(cost: &C, bar: i64, load: i64) -> bool
    ensures { result ≡ true → Turns (C.Cost.meaning cost.now) bar load }
{
    if !LOADS.contain(load) {
        return false;
    }
    pass_between(cost.increment_at(load - 1), cost.increment_at(load), bar)
}

// The load at which the increments of a cost pass a bar, which may be the one at hand.
fn turn_from<C: Cost>(cost: &C, bar: i64, load: i64) -> i64
    ensures { Turns (C.Cost.meaning cost.now) bar result }
{
    if turns_at(cost, bar, load) {
        load
    } else {
        turn(cost, bar)
    }
}

// The loads of an arc that are slack within a step of its tension. A span at hand is tried first.
fn narrowed<C: Cost>(cost: &C, tension: i64, step: i64, at_hand: Span) -> Span
    requires tension { Between (negsuc 999999999999999) (pos 1000000000000000) tension }
    requires step { Between (pos 1) (pos 1048576) step }
    ensures { Narrow (C.Cost.meaning cost.now) tension step result.low result.high }
{
    Span {
        low: turn_from(cost, tension - step + 1, at_hand.low),
        high: turn_from(cost, tension + step, at_hand.high),
    }
}

impl<C: Cost> Network<'_, C> {
    ghost use Rattle.search.specs.Networks.{network_of};

    // Narrows the spans of the arcs that are due. Those of the other arcs are narrow already.
    pub(crate) fn narrow<F: Fn(&Arc) -> bool>(
        &self,
        prices: &[i64],
        step: i64,
        due: F,
        spans: &mut [Span],
    )
        requires priced { length self.now.graph.nodes.now ≤ length prices.now }
        requires modest { Modest (length self.now.graph.nodes.now) prices.now }
        requires step { Between (pos 1) (pos 1048576) step }
        requires callable { F.IsAlwaysCallable due }
        requires long { length self.now.graph.arcs.now ≤ length spans.old }
        requires others { NarrowedWhere (λ a. FnReturnsAt F.Fn due (arc_at self.now.graph.arcs.now a) false) (network_of C.Cost.meaning self.now) (numbers prices.now) step (low_of spans.old) (high_of spans.old) }
        ensures { Narrowed (network_of C.Cost.meaning self.now) (numbers prices.now) step (low_of spans.new) (high_of spans.new) }
    {
        // Of spans that are written through a zip of `iter_mut`, a proof knows nothing afterwards.
        for (a, (arc, cost)) in self.graph.arcs.iter().zip(self.costs).enumerate() {
            if due(arc) {
                spans[a] = narrowed(cost, arc.tension(prices), step, spans[a]);
            }
        }
    }

    // The span of each arc is the range of its cost.
    pub(crate) fn widen(&self, spans: &mut [Span])
        requires { length self.now.graph.arcs.now ≤ length spans.old }
        ensures lows { (a : ℕ) → a < length self.now.graph.arcs.now → low_of spans.new a ≡ pos (cost_of (map C.Cost.meaning self.now.costs.now) a).first }
        ensures highs { (a : ℕ) → a < length self.now.graph.arcs.now → high_of spans.new a ≡ pos (last (cost_of (map C.Cost.meaning self.now.costs.now) a)) }
    {
        // By index, as the spans above.
        for (a, cost) in self.costs.iter().enumerate() {
            spans[a] = Span {
                low: cost.first_load(),
                high: cost.last_load(),
            };
        }
    }
}

// Brings each load that lies outside its span to the nearer end.
pub(crate) fn hold(spans: &[Span], loads: &mut [i64])
    requires { length spans.now ≤ length loads.old }
    ensures { HeldIn spans.now loads.new }
{
    // Of loads that are written through a zip of `iter_mut`, a proof knows nothing afterwards.
    for (a, span) in spans.iter().enumerate() {
        loads[a] = loads[a].max(span.low).min(span.high);
    }
}
