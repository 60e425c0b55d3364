// The lines of a record, each read in one step. A step that is refused leaves the cursor where it was.
//
// A step walks on a copy of the cursor and takes its place over at the end: two lines, where a closure for the walk would
// ask for a contract that says the step once more.
ghost use Rattle.std.specs.Prelude.{◌≡◌, ◌≤◌, length, pos, IfOk};
ghost use Rattle.cost.specs.Meaning.{Between};
ghost use Rattle.text.specs.Walks.{Makes, holding};
ghost use Rattle.record_form.specs.Lines.{count_at, first_line_at, list_at, row_at, row_end_at};
ghost use Rattle.record_form.specs.Answers.{as_numbers};

use cost::numbers::Limits;
use cost::written::{MOST_NUMBERS, Recorded, Row};
use network::records::{MOST_ARCS, MOST_NODES};
use text::cursor::{Cursor, Malformed};

// The words that begin the lines.
pub const NET: &[u8] = b"net";

pub const SUPPLIES: &[u8] = b"sup";

pub const TAILS: &[u8] = b"from";

pub const HEADS: &[u8] = b"to";

pub const COST: &[u8] = b"c";

// As many numbers as follow the first of a row at most.
const MOST_FURTHER: usize = MOST_NUMBERS - 1;

// What the first line says: how many nodes and how many arcs the network has.
#[derive(Clone, Copy)]
pub struct Counts {
    pub nodes: i64,
    pub arcs: i64,
}

// A space, and a number from 0 to `most`.
fn count(cursor: &mut Cursor<'_>, most: i64) -> Result<i64, Malformed>
    ensures step { Makes (λ text at. count_at text at most) cursor.old cursor.new result }
    ensures within { IfOk result (Between (pos 0) most) }
{
    let mut ahead = *cursor;
    ahead.space()?;
    let first = ahead.at;
    let number = ahead.number()?;
    let limits = Limits { low: 0, high: most };
    if !limits.contain(number) {
        return Err(Malformed { offset: first });
    }
    cursor.at = ahead.at;
    Ok(number)
}

// The first line: the word `net`, the letter of the kind of cost, the count of nodes and the count of arcs.
pub fn first_line(cursor: &mut Cursor<'_>, letter: char) -> Result<Counts, Malformed>
    ensures step { Makes (λ text at. first_line_at text at letter) cursor.old cursor.new result }
    ensures nodes { IfOk result (λ counts. Between (pos 0) (pos 64) counts.nodes) }
    ensures arcs { IfOk result (λ counts. Between (pos 0) (pos 256) counts.arcs) }
{
    let mut ahead = *cursor;
    ahead.word(NET)?;
    ahead.space()?;
    ahead.letter(letter)?;
    let nodes = count(&mut ahead, MOST_NODES as i64)?;
    let arcs = count(&mut ahead, MOST_ARCS as i64)?;
    ahead.line_end()?;
    cursor.at = ahead.at;
    Ok(Counts { nodes, arcs })
}

// A line of a word and as many numbers as the list is long, which are put there.
pub fn list(cursor: &mut Cursor<'_>, word: &[u8], into: &mut [i64]) -> Result<(), Malformed>
    ensures { Makes (λ text at. list_at text at word.now (length into.old)) cursor.old cursor.new (holding into.new result) }
{
    let mut ahead = *cursor;
    ahead.word(word)?;
    ahead.numbers(into)?;
    ahead.line_end()?;
    cursor.at = ahead.at;
    Ok(())
}

// The rest of a row's line after its first number; as many numbers follow as the list is long.
fn row_end(cursor: &mut Cursor<'_>, first: i64, further: &mut [i64]) -> Result<Row, Malformed>
    requires { length further.old ≤ 18 }
    ensures { Makes (λ text at. row_end_at text at first (length further.old)) cursor.old cursor.new (as_numbers result) }
{
    let mut ahead = *cursor;
    ahead.numbers(further)?;
    ahead.line_end()?;
    cursor.at = ahead.at;
    let mut row = Row::empty();
    row.extend(&[first]);
    row.extend(further);
    Ok(row)
}

// A line of the word `c` and a row, which has as many numbers as the first of them tells.
pub fn row<W: Recorded>(cursor: &mut Cursor<'_>) -> Result<Row, Malformed>
    ensures { Makes (λ text at. row_at text at W.Written.long) cursor.old cursor.new (as_numbers result) }
{
    let mut ahead = *cursor;
    ahead.word(COST)?;
    ahead.space()?;
    let start = ahead.at;
    let first = ahead.number()?;
    let Some(count) = W::row_length(first) else {
        return Err(Malformed { offset: start });
    };
    // As many numbers are read as the list that is lent is long, so the part is lent that the first number tells.
    let mut further = [0; MOST_FURTHER];
    let row = row_end(&mut ahead, first, &mut further[0..count - 1])?;
    cursor.at = ahead.at;
    Ok(row)
}
