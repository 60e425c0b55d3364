// What the tables of examples are held to, and the books that they work on.
use cost::costs::Cost;
use cost::refusals::{Layer, Refusal};
use ledger::faults::{DraftFault, SheetFault};
use ledger::settling::Amounts;
use ledger::standing::Standing;
use sheet::sheets::Sheet;
use sheet::sheets::drafting::stages::begin;
use sheet::sheets::drafting::steps::size;
use std::process::Abort;
use std::test::Fail;

// The number and the place of a refusal, where a call is not accepted.
pub(crate) type Refused = Option<(usize, usize)>;

// The answer is accepted where nothing is refused, and else its fault is reported by this number and place in this layer.
fn check_answer<T: Drop, F: Drop>(
    rt: &impl Abort,
    answer: Result<T, F>,
    refused: Refused,
    layer: Layer,
)
where
    Refusal: From<F>,
{
    let refusal = refused.map(|(number, place)| Refusal {
        number,
        place,
        layer,
    });
    assert_eq!(rt; answer.err().map(Refusal::from), refusal);
}

// The answer of a step of a draft is refused so, or accepted.
pub(crate) fn check_draft<T: Drop>(
    rt: &impl Abort,
    answer: Result<T, DraftFault>,
    refused: Refused,
) {
    check_answer(rt, answer, refused, Layer::Draft);
}

// The answer of a call on a sheet is refused so, or accepted.
pub(crate) fn check_sheet<T: Drop>(
    rt: &impl Abort,
    answer: Result<T, SheetFault>,
    refused: Refused,
) {
    check_answer(rt, answer, refused, Layer::Sheet);
}

// The book with these supplies and these arcs.
pub(crate) fn book(supplies: &[i64], arcs: &[(i64, i64)]) -> Result<Sheet, DraftFault> {
    let mut sheet = Sheet::blank();
    let count = i64::try_from(supplies.len()).unwrap_or(i64::MAX);
    let mut feeding = begin(&mut sheet, size(count)?);
    for supply in supplies {
        feeding.feed(*supply)?;
    }
    let mut laying = feeding.turn();
    for (tail, head) in arcs.iter().copied() {
        laying.lay(tail, head)?;
    }
    laying.open();
    Ok(sheet)
}

// The book settles at this charge, which its floor equals.
pub(crate) fn check_settles<C: Cost>(
    rt: &impl Abort,
    sheet: &mut Sheet,
    costs: &[C],
    charge: i64,
) -> Result<(), Fail> {
    let best = Amounts {
        charge,
        floor: charge,
    };
    assert_eq!(rt; sheet.settle(costs)?, best);
    assert_eq!(rt; sheet.stands(), Standing::Settled);
    Ok(())
}

// Settling is refused with this number and place.
pub(crate) fn check_unsettled<C: Cost>(
    rt: &impl Abort,
    sheet: &mut Sheet,
    costs: &[C],
    refused: (usize, usize),
) {
    check_sheet(rt, sheet.settle(costs), Some(refused));
}

// The sheet stands so.
pub(crate) fn check_stands(rt: &impl Abort, sheet: &Sheet, standing: Standing) {
    assert_eq!(rt; sheet.stands(), standing);
}

// These are the loads of the arcs, in order.
pub(crate) fn check_loads(rt: &impl Abort, sheet: &Sheet, loads: &[i64]) -> Result<(), Fail> {
    for (arc, load) in (1..).zip(loads) {
        assert_eq!(rt; sheet.load_of(arc)?, *load);
    }
    Ok(())
}
