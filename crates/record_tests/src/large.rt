// The largest record: 64 nodes, and 256 arcs with eight pieces each.
use crate::checks::untouched;
use record::reading::read;
use record::writing::write;
use sheet::sheets::Sheet;
use sheet::sheets::drafting::Draft;
use sheet::sheets::drafting::steps::size;
use std::test::Fail;
use stepped_cost::stepped::Stepped;

// A book of 64 nodes and 256 arcs.
fn largest() -> Result<Sheet, Fail> {
    let mut draft = Draft::new(size(64)?);
    for _ in 0..64 {
        draft.feed(-100_000)?;
    }
    for _ in 0..256 {
        draft.lay(64, 63)?;
    }
    let mut sheet = Sheet::blank();
    draft.open(&mut sheet);
    Ok(sheet)
}

#[test]
fn the_largest_record_comes_back(rt: HostRuntime) -> Result<(), Fail> {
    let sheet = largest()?;
    let cost = Stepped {
        first: 1_000,
        opening: -1_000_000_000,
        count: 8,
        widths: [1_000; 8],
        slopes: [-1_000_000; 8],
    };
    let costs = [cost; 256];
    let mut bytes = [b'#'; 65_536];
    let length = write(&sheet, &costs, &mut bytes)?;
    assert!(rt; length <= bytes.len());
    let mut again = Sheet::blank();
    let mut places = [untouched(); 256];
    read(&bytes[0..length], &mut again, &mut places)?;
    assert!(rt; again.node_count() == 64 && again.arc_count() == 256);
    assert!(rt; places == costs);
    Ok(())
}
