// What follows from the contracts of this crate: each function here is a theorem, or a call that shows one.
ghost use Rattle.std.specs.Prelude.{◌≡◌, true, is_ok};
ghost use Rattle.cost.specs.Places.{FirstPlaceIsFirst};

use crate::refusals::CostFault;
use crate::written::Written;

// The place that a refusal names is the first at which its condition holds.
pub fn first_place_is_first()
    ensures { FirstPlaceIsFirst }
{}

// Fills one cost from the row of another: it is never refused, and gives that row and that meaning again.
pub fn copy_by_row<W: Written>(from: &W, to: &mut W) -> Result<(), CostFault>
    ensures accepted { is_ok result ≡ true }
    ensures row { W.Written.row to.new ≡ W.Written.row from.now }
    ensures meaning { W.Cost.meaning to.new ≡ W.Cost.meaning from.now }
{
    let row = from.row();
    to.fill(row.as_slice())
}
