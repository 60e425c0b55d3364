// The lines of the costs, each filled into a cost place.
ghost use Rattle.std.specs.Prelude.{◌≡◌, ◌≤◌, length, OnErr};
ghost use Rattle.text.specs.Walks.{text_of};
ghost use Rattle.record.specs.Outcomes.{Filled, Takes, shown_by};
ghost use Rattle.record.specs.Readings.{row_stage, rows_from};

use crate::faults::{RecordFault, Spot};
use cost::written::Recorded;
use record_form::lines;
use text::cursor::Cursor;

// The line of the first cost.
const FIRST_ROW: usize = 5;

// One line of a cost: its row fills a copy of the place, which is stored back if the row is accepted.
fn cost_line<W: Recorded + Copy>(
    cursor: &mut Cursor<'_>,
    line: usize,
    place: &mut W,
) -> Result<(), RecordFault>
    ensures shown { Takes (λ _. W.Written.row place.new) (λ text at. row_stage (record { letter = W.Written.LETTER; long = W.Written.long; refuses = W.Written.refuses }) text at line) cursor.old cursor.new result }
    ensures untouched { OnErr result (place.new ≡ place.old) }
{
    let row = lines::row::<W>(cursor)?;
    // A copy is filled, and stored once its row is accepted, so that a refused row leaves the place as it was.
    let mut cost = *place;
    let spot = Spot { line, field: None };
    cost.fill(row.as_slice())
        .map_err(|fault| RecordFault::Cost(fault, spot))?;
    *place = cost;
    Ok(())
}

// A line for each cost place.
pub(crate) fn cost_lines<W: Recorded + Copy>(
    cursor: &mut Cursor<'_>,
    places: &mut [W],
) -> Result<(), RecordFault>
    requires { length places.old ≤ 256 }
    ensures end { shown_by (λ _. cursor.new.at) result ≡ (rows_from (record { letter = W.Written.LETTER; long = W.Written.long; refuses = W.Written.refuses }) (text_of cursor.old) cursor.old.at 5 (length places.old)).end }
    ensures places { Filled W.Written.row places.old places.new (rows_from (record { letter = W.Written.LETTER; long = W.Written.long; refuses = W.Written.refuses }) (text_of cursor.old) cursor.old.at 5 (length places.old)).rows }
    ensures keeps { text_of cursor.new ≡ text_of cursor.old }
{
    for (i, place) in places.iter_mut().enumerate() {
        cost_line(cursor, i + FIRST_ROW, place)?;
    }
    Ok(())
}
