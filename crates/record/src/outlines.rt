// What is written of a book before its rows: its counts, supplies and ends as lists of numbers.
ghost use Rattle.std.specs.Prelude.{◌≡◌, ◌+◌, ◌<◌, ◌≤◌, length, pos, slice_index_or};
ghost use Rattle.network.specs.Records.{no_arc, no_node};
ghost use Rattle.sheet.specs.Sheets.{book_of};
ghost use Rattle.text.specs.Writing.{HasRoom, Appends};
ghost use Rattle.record.specs.Outlines.{outline_text};
ghost use Rattle.record.specs.Texts.{book_text, heads_of, supplies_of, tails_of};

use arrayvec::ArrayVec;
use record_form::lines;
use record_form::setting::{line_length, write_line};
use sheet::sheets::{MOST_ARCS, MOST_NODES, Sheet};
use text::writing::Writer;

// The first four lines: how the first line starts, its counts, and the lists of the other three. The start is one list
// of bytes, as `write_line` asks for: the word `net`, a space and the letter.
#[derive(Drop)]
pub(crate) struct Outline {
    start: [u8; 5],
    counts: [i64; 2],
    supplies: ArrayVec<i64, MOST_NODES>,
    ends: Ends,
}

// The tails and the heads of arcs, as the numbers of their nodes: two lists, for each is written as a line of its own.
#[derive(Drop)]
struct Ends {
    tails: ArrayVec<i64, MOST_ARCS>,
    heads: ArrayVec<i64, MOST_ARCS>,
}

// The supply of the node at a place.
fn supply_at(sheet: &Sheet, place: usize) -> i64
    requires { place < length (book_of sheet.now).nodes }
    ensures { result ≡ (slice_index_or (book_of sheet.now).nodes place no_node).supply }
{
    sheet.supply_of(place as i64 + 1).unwrap()
}

// The ends of the arc at a place, as the numbers of its nodes.
fn ends_at(sheet: &Sheet, place: usize) -> (i64, i64)
    requires { place < length (book_of sheet.now).arcs }
    ensures tail { result.0 ≡ pos ((slice_index_or (book_of sheet.now).arcs place no_arc).tail + 1) }
    ensures head { result.1 ≡ pos ((slice_index_or (book_of sheet.now).arcs place no_arc).head + 1) }
{
    let (tail, head) = sheet.ends_of(place as i64 + 1).unwrap();
    (tail as i64, head as i64)
}

// The supplies of all nodes, each asked for by its place, for a sheet lends no list of its nodes.
fn supplies_of(sheet: &Sheet) -> ArrayVec<i64, MOST_NODES>
    ensures { result.items ≡ supplies_of (book_of sheet.now).nodes }
{
    let mut supplies = ArrayVec::new();
    for place in 0..sheet.node_count() {
        supplies.push(supply_at(sheet, place));
    }
    supplies
}

// The ends of all arcs, each asked for by its place, for a sheet lends no list of its arcs.
fn ends_of(sheet: &Sheet) -> Ends
    ensures tails { result.tails.items ≡ tails_of (book_of sheet.now).arcs }
    ensures heads { result.heads.items ≡ heads_of (book_of sheet.now).arcs }
{
    let mut tails = ArrayVec::new();
    let mut heads = ArrayVec::new();
    for place in 0..sheet.arc_count() {
        let (tail, head) = ends_at(sheet, place);
        tails.push(tail);
        heads.push(head);
    }
    Ends { tails, heads }
}

impl Outline {
    // The outline of a book; the letter is that of the kind of its costs.
    pub(crate) fn of(sheet: &Sheet, letter: char) -> Outline
        requires { letter < 128 }
        ensures { outline_text result ≡ book_text letter (book_of sheet.now) }
    {
        Outline {
            start: [b'n', b'e', b't', b' ', letter as u8],
            counts: [sheet.node_count() as i64, sheet.arc_count() as i64],
            supplies: supplies_of(sheet),
            ends: ends_of(sheet),
        }
    }

    // How long the first four lines are.
    pub(crate) fn length(&self) -> usize
        ensures length { result ≡ length (outline_text self.now) }
        ensures short { result ≤ 100000 }
    {
        let first = line_length(&self.start, &self.counts);
        let second = line_length(lines::SUPPLIES, self.supplies.as_slice());
        let third = line_length(lines::TAILS, self.ends.tails.as_slice());
        let fourth = line_length(lines::HEADS, self.ends.heads.as_slice());
        first + second + third + fourth
    }

    // Writes the first four lines; the caller sees that there is room.
    pub(crate) fn write(&self, writer: &mut Writer<'_>)
        requires { HasRoom writer.old (outline_text self.now) }
        ensures { Appends (outline_text self.now) writer.old writer.new }
    {
        write_line(writer, &self.start, &self.counts);
        write_line(writer, lines::SUPPLIES, self.supplies.as_slice());
        write_line(writer, lines::TAILS, self.ends.tails.as_slice());
        write_line(writer, lines::HEADS, self.ends.heads.as_slice());
    }
}
