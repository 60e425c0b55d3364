// A graph under loads that keep within the spans of its arcs.
ghost use Rattle.std.specs.Prelude.{ℕ, ◌<◌, ◌≤◌, length, pos, ◌≤ℤ◌};
ghost use Rattle.network.specs.Records.{numbers};
ghost use Rattle.flow.specs.Spans.{low_of, high_of};

use crate::spans::Span;
use network::graph::Graph;

// For each arc a span that lies from 0 to 10000, and a load within it.
#[derive(Clone, Copy)]
pub struct Loaded<'a> {
    pub graph: Graph<'a>,
    pub spans: &'a [Span],
    pub loads: &'a [i64],
    ghost spans_long: { length graph.arcs.now ≤ length spans.now },
    ghost loads_long: { length graph.arcs.now ≤ length loads.now },
    ghost low_limit: { (a : ℕ) → a < length graph.arcs.now → pos 0 ≤ℤ low_of spans.now a },
    ghost high_limit: { (a : ℕ) → a < length graph.arcs.now → high_of spans.now a ≤ℤ pos 10000 },
    ghost above_low: { (a : ℕ) → a < length graph.arcs.now → low_of spans.now a ≤ℤ numbers loads.now a },
    ghost under_high: { (a : ℕ) → a < length graph.arcs.now → numbers loads.now a ≤ℤ high_of spans.now a },
}
