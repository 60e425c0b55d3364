// The two ways over an arc.
ghost use Rattle.std.specs.Prelude.{◌≡◌, pos, ◌≤ℤ◌, if◌then◌else◌};
ghost use Rattle.flow.specs.Labels.{is_along, room_on};

use crate::spans::Span;
use network::records::Arc;

// Whether a step goes over an arc from its tail to its head, or from its head to its tail.
#[derive(Clone, Copy, Debug, PartialEq, Eq)]
pub enum Way {
    Along,
    Against,
}

// Where a step starts and where it ends are two calls of two lines: each is the other with the ends exchanged, and says so by itself.
impl Way {
    // The node from which a step over an arc starts.
    pub(crate) fn start(self, arc: &Arc) -> usize
        ensures { result ≡ (if is_along self then arc.now.tail else arc.now.head) }
    {
        match self {
            Way::Along => arc.tail,
            Way::Against => arc.head,
        }
    }

    // The node at which such a step ends.
    pub(crate) fn end(self, arc: &Arc) -> usize
        ensures { result ≡ (if is_along self then arc.now.head else arc.now.tail) }
    {
        match self {
            Way::Along => arc.head,
            Way::Against => arc.tail,
        }
    }

    // By how much a load can change in the direction of a step.
    pub(crate) fn room(self, span: Span, load: i64) -> i64
        requires from { pos 0 ≤ℤ span.low }
        requires above { span.low ≤ℤ load }
        requires under { load ≤ℤ span.high }
        requires to { span.high ≤ℤ pos 10000 }
        ensures { result ≡ room_on (is_along self) span.low span.high load }
    {
        match self {
            Way::Along => span.high - load,
            Way::Against => load - span.low,
        }
    }
}
