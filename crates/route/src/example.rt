// The example: three nodes and three arcs.
use cost::refusals::CostFault;
use sheet::faults::DraftFault;
use sheet::sheets::Sheet;
use sheet::sheets::drafting::stages::begin;
use sheet::sheets::drafting::steps::size;
use stepped_cost::stepped::Stepped;

// Node 1 supplies four requests and node 3 takes them, over node 2 or directly.
pub(crate) fn draft(sheet: &mut Sheet) -> Result<(), DraftFault> {
    let mut feeding = begin(sheet, size(3)?);
    for supply in [4, 0, -4] {
        feeding.feed(supply)?;
    }
    let mut laying = feeding.turn();
    for (tail, head) in [(1, 2), (2, 3), (1, 3)] {
        laying.lay(tail, head)?;
    }
    laying.open();
    Ok(())
}

// The costs of the three arcs: four requests at 1, four at 2, and two at 2 before two at 5.
pub(crate) fn tariffs() -> Result<[Stepped; 3], CostFault> {
    let first = Stepped::new(0, 0, &[4], &[1])?;
    let second = Stepped::new(0, 0, &[4], &[2])?;
    let third = Stepped::new(0, 0, &[2, 2], &[2, 5])?;
    Ok([first, second, third])
}
