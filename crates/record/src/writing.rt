// Writing a record.
ghost use Rattle.std.specs.Prelude.{◌≡◌, ◌*◌, ◌≤◌, ◌++◌, map, length, take, IfOk, codes};
ghost use Rattle.cost.specs.Places.{kept_or, unless};
ghost use Rattle.record_form.specs.Lines.{line, row_lines};
ghost use Rattle.sheet.specs.Sheets.{book_of};
ghost use Rattle.text.specs.Writing.{HasRoom, Appends, written};
ghost use Rattle.record.specs.Outcomes.{Writes};
ghost use Rattle.record.specs.Outlines.{outline_text};
ghost use Rattle.record.specs.Texts.{no_room, record_text};
ghost use Rattle.record.specs.Theorems.{ReadsBack};

use crate::faults::WritingFault;
use crate::outlines::Outline;
use cost::written::Recorded;
use record_form::lines::COST;
use record_form::setting::{line_length, write_line};
use sheet::sheets::Sheet;
use text::writing::Writer;

// How long the lines of the costs are.
fn rows_length<W: Recorded>(costs: &[W]) -> usize
    requires { length costs.now ≤ 256 }
    ensures length { result ≡ length (row_lines (map W.Written.row costs.now)) }
    ensures short { result ≤ 420 * length costs.now }
{
    let mut total = 0;
    for cost in costs {
        let row = cost.row();
        total += line_length(COST, row.as_slice());
    }
    total
}

// Writes the line of one cost; the caller sees that there is room.
fn write_row<W: Recorded>(writer: &mut Writer<'_>, cost: &W)
    requires { HasRoom writer.old (line (codes "c") (W.Written.row cost.now)) }
    ensures { Appends (line (codes "c") (W.Written.row cost.now)) writer.old writer.new }
{
    let row = cost.row();
    write_line(writer, COST, row.as_slice());
}

// Writes the lines of the costs; the caller sees that there is room.
fn write_rows<W: Recorded>(writer: &mut Writer<'_>, costs: &[W])
    requires { HasRoom writer.old (row_lines (map W.Written.row costs.now)) }
    ensures { Appends (row_lines (map W.Written.row costs.now)) writer.old writer.new }
{
    for cost in costs {
        write_row(writer, cost);
    }
}

// Writes an outline and the lines of the costs, if there is room for all of it.
fn write_whole<W: Recorded>(
    outline: &Outline,
    costs: &[W],
    bytes: &mut [u8],
) -> Result<usize, WritingFault>
    requires { length costs.now ≤ 256 }
    ensures answer { result ≡ unless (no_room (length (outline_text outline.now ++ row_lines (map W.Written.row costs.now))) (length bytes.old)) (length (outline_text outline.now ++ row_lines (map W.Written.row costs.now))) }
    ensures bytes { bytes.new ≡ kept_or bytes.old (no_room (length (outline_text outline.now ++ row_lines (map W.Written.row costs.now))) (length bytes.old)) (written bytes.old 0 (outline_text outline.now ++ row_lines (map W.Written.row costs.now))) }
{
    let needed = outline.length() + rows_length(costs);
    if bytes.len() < needed {
        return Err(WritingFault::Space(needed));
    }
    let mut writer = Writer::new(bytes);
    outline.write(&mut writer);
    write_rows(&mut writer, costs);
    Ok(writer.at)
}

// Writes the book of a sheet with its costs into bytes that are lent, and answers how long the text is. What is written
// reads back, and each row means what its cost means.
pub fn write<W: Recorded>(
    sheet: &Sheet,
    costs: &[W],
    bytes: &mut [u8],
) -> Result<usize, WritingFault>
    ensures outcome { Writes (length (book_of sheet.now).arcs) (length costs.now) (record_text W.Written.LETTER (book_of sheet.now) (map W.Written.row costs.now)) result bytes.old bytes.new }
    ensures back { IfOk result (λ n. ReadsBack (record { letter = W.Written.LETTER; long = W.Written.long; refuses = W.Written.refuses }) (book_of sheet.now) (map W.Written.row costs.now) (take n bytes.new)) }
    ensures means { map W.Cost.meaning costs.now ≡ map W.Written.means (map W.Written.row costs.now) }
{
    if costs.len() != sheet.arc_count() {
        return Err(WritingFault::List);
    }
    let outline = Outline::of(sheet, W::LETTER);
    write_whole(&outline, costs, bytes)
}
