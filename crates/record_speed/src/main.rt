// A benchmark: writes the largest record, 64 nodes and 256 arcs with eight pieces each, and reads it 200 times. Run it
// under `time` to see what a reading takes.
#![tactic(auto)]

use anyhow::{Context, anyhow, ensure};
use ledger::faults::DraftFault;
use record::reading::read;
use record::writing::write;
use sheet::sheets::drafting::Draft;
use sheet::sheets::drafting::steps::size;
use sheet::sheets::{MOST_ARCS, MOST_NODES, Sheet};
use stepped_cost::stepped::Stepped;

const TURNS: usize = 200;

// The book of 64 nodes and 256 arcs; the tests of records make the same, of which a program can take nothing.
fn largest() -> Result<Sheet, DraftFault> {
    let mut draft = Draft::new(size(64)?);
    for _ in 0..MOST_NODES {
        draft.feed(-100_000)?;
    }
    for _ in 0..MOST_ARCS {
        draft.lay(64, 63)?;
    }
    let mut sheet = Sheet::blank();
    draft.open(&mut sheet);
    Ok(sheet)
}

// Reads the text many times, and answers how often it was accepted.
fn accepted(text: &[u8], places: &mut [Stepped]) -> usize {
    let mut sheet = Sheet::blank();
    (0..TURNS)
        .filter(|_| read(text, &mut sheet, places).is_ok())
        .count()
}

fn run(rt: &HostRuntime) -> anyhow::Result<()> {
    let sheet = largest().context("the draft is refused")?;
    let cost = Stepped {
        first: 1_000,
        opening: -1_000_000_000,
        count: 8,
        widths: [1_000; 8],
        slopes: [-1_000_000; 8],
    };
    let mut costs = [cost; MOST_ARCS];
    let mut bytes = [0; 65_536];
    let length = write(&sheet, &costs, &mut bytes).map_err(|_| anyhow!(
        "the record is not written"
    ))?;
    ensure!(length <= bytes.len(), "the record is not written");
    let count = accepted(&bytes[..length], &mut costs);
    println!(rt; "a record of {length} bytes was read {count} times")?;
    Ok(())
}

fn main(rt: HostRuntime) -> anyhow::Result<()> {
    run(&rt)
}
