// Reading a record.
ghost use Rattle.std.specs.Prelude.{◌≡◌, map, length, take, OnOk};
ghost use Rattle.sheet.specs.Sheets.{book_of};
ghost use Rattle.record.specs.Outcomes.{Reads};
ghost use Rattle.record.specs.Readings.{reading};
ghost use Rattle.record.specs.Texts.{record_text};
ghost use Rattle.record.specs.Theorems.{LoopFree};

use crate::drafts::network_lines;
use crate::faults::RecordFault;
use crate::rows::cost_lines;
use cost::written::Recorded;
use sheet::sheets::Sheet;
use text::cursor::Cursor;

// Reads a text: the sheet becomes the book that the text gives, and the first cost places are filled from its rows. A
// text is accepted only if it is the one that `write` gives for what was read.
pub fn read<W: Recorded + Copy>(
    text: &[u8],
    sheet: &mut Sheet,
    places: &mut [W],
) -> Result<(), RecordFault>
    ensures outcome { Reads W.Written.row W.Cost.meaning W.Written.means (reading (record { letter = W.Written.LETTER; long = W.Written.long; refuses = W.Written.refuses }) text.now (length places.old)) result (book_of sheet.new) places.old places.new }
    ensures written { OnOk result (text.now ≡ record_text W.Written.LETTER (book_of sheet.new) (map W.Written.row (take (length (book_of sheet.new).arcs) places.new))) }
    ensures apart { OnOk result (LoopFree (book_of sheet.new).arcs) }
{
    *sheet = Sheet::blank();
    let mut cursor = Cursor::new(text);
    let network = network_lines::<W>(&mut cursor, places.len())?;
    let count = network.arcs;
    cost_lines(&mut cursor, &mut places[0..count])?;
    cursor.text_end()?;
    network.draft.open(sheet);
    Ok(())
}
