// The first four lines of a record, read into a draft. Each function walks past its lines.
ghost use Rattle.std.specs.Prelude.{◌≡◌, ◌≤◌, length, IfOk};
ghost use Rattle.sheet.specs.Drafts.{sketch_of};
ghost use Rattle.record.specs.Outcomes.{Takes, shown_by};
ghost use Rattle.record.specs.Readings.{arc_stage, fed, laid, net_stage, network_stage, supply_stage};

use crate::faults::{RecordFault, Spot};
use cost::written::Recorded;
use record_form::lines;
use sheet::sheets::drafting::Draft;
use sheet::sheets::drafting::steps::size;
use sheet::sheets::{MOST_ARCS, MOST_NODES};
use text::cursor::Cursor;

// A draft that has begun, for so many nodes and arcs.
#[derive(Clone, Copy)]
struct Begun {
    draft: Draft,
    nodes: usize,
    arcs: usize,
}

// A draft of the whole network, and how many rows are to come.
#[derive(Clone, Copy)]
pub(crate) struct Network {
    pub draft: Draft,
    pub arcs: usize,
}

// Feeds all supplies.
fn feed_all(mut draft: Draft, supplies: &[i64]) -> Result<Draft, RecordFault>
    requires { length supplies.now ≤ 64 }
    ensures { shown_by sketch_of result ≡ fed (sketch_of draft) 2 supplies.now }
{
    for (i, supply) in supplies.iter().enumerate() {
        let spot = Spot {
            line: 2,
            field: Some(i + 2),
        };
        draft
            .feed(*supply)
            .map_err(|fault| RecordFault::Draft(fault, spot))?;
    }
    Ok(draft)
}

// Lays all arcs.
fn lay_all(mut draft: Draft, tails: &[i64], heads: &[i64]) -> Result<Draft, RecordFault>
    requires few { length tails.now ≤ 256 }
    requires pairs { length tails.now ≡ length heads.now }
    ensures { shown_by sketch_of result ≡ laid (sketch_of draft) 2 tails.now heads.now }
{
    // The field is counted beside the pairs: the lemma about a zip that is numbered stands in the search, of which a record knows nothing.
    let mut field = 2;
    for (tail, head) in tails.iter().zip(heads) {
        let spot = Spot {
            line: 4,
            field: Some(field),
        };
        draft
            .lay(*tail, *head)
            .map_err(|fault| RecordFault::Draft(fault, spot))?;
        field += 1;
    }
    Ok(draft)
}

// The first line: a draft of so many nodes, if there are cost places enough.
fn net_line<W: Recorded>(cursor: &mut Cursor<'_>, places: usize) -> Result<Begun, RecordFault>
    requires { cursor.old.at ≡ 0 }
    ensures shown { Takes (λ b. (sketch_of b.draft, b.arcs)) (λ text _. net_stage text W.Written.LETTER places) cursor.old cursor.new result }
    ensures nodes { IfOk result (λ b. (b.nodes ≡ length (sketch_of b.draft).nodes) × (b.nodes ≤ 64)) }
    ensures arcs { IfOk result (λ b. (b.arcs ≤ 256) × (b.arcs ≤ places)) }
{
    let counts = lines::first_line(cursor, W::LETTER)?;
    let arcs = counts.arcs as usize;
    if places < arcs {
        return Err(RecordFault::Space(arcs));
    }
    let spot = Spot {
        line: 1,
        field: Some(3),
    };
    let size = size(counts.nodes).map_err(|fault| RecordFault::Draft(fault, spot))?;
    Ok(Begun {
        draft: Draft::new(size),
        nodes: counts.nodes as usize,
        arcs,
    })
}

// The second line: as many supplies as the draft has nodes.
fn supply_line(
    cursor: &mut Cursor<'_>,
    draft: Draft,
    supplies: &mut [i64],
) -> Result<Draft, RecordFault>
    requires each { length supplies.old ≡ length (sketch_of draft).nodes }
    requires few { length supplies.old ≤ 64 }
    ensures { Takes sketch_of (λ text at. supply_stage text at (sketch_of draft)) cursor.old cursor.new result }
{
    lines::list(cursor, lines::SUPPLIES, supplies)?;
    feed_all(draft, supplies)
}

// The third and the fourth line: the tails and the heads of the arcs.
fn arc_lines(
    cursor: &mut Cursor<'_>,
    draft: Draft,
    tails: &mut [i64],
    heads: &mut [i64],
) -> Result<Draft, RecordFault>
    requires pairs { length tails.old ≡ length heads.old }
    requires few { length tails.old ≤ 256 }
    ensures { Takes sketch_of (λ text at. arc_stage text at (sketch_of draft) (length tails.old)) cursor.old cursor.new result }
{
    lines::list(cursor, lines::TAILS, tails)?;
    lines::list(cursor, lines::HEADS, heads)?;
    lay_all(draft, tails, heads)
}

// The first four lines: a draft of the whole network.
pub(crate) fn network_lines<W: Recorded>(
    cursor: &mut Cursor<'_>,
    places: usize,
) -> Result<Network, RecordFault>
    requires { cursor.old.at ≡ 0 }
    ensures shown { Takes (λ net. (sketch_of net.draft, net.arcs)) (λ text _. network_stage text W.Written.LETTER places) cursor.old cursor.new result }
    ensures arcs { IfOk result (λ net. (net.arcs ≤ 256) × (net.arcs ≤ places)) }
{
    let Begun { draft, nodes, arcs } = net_line::<W>(cursor, places)?;
    // As many numbers are read as the list that is lent is long; of each array the part that the first line tells is lent.
    let mut supplies = [0; MOST_NODES];
    let mut tails = [0; MOST_ARCS];
    let mut heads = [0; MOST_ARCS];
    let draft = supply_line(cursor, draft, &mut supplies[..nodes])?;
    let draft = arc_lines(cursor, draft, &mut tails[..arcs], &mut heads[..arcs])?;
    Ok(Network { draft, arcs })
}
