// What the tables of examples are held to.
use cost::costs::Cost;
use cost::refusals::{Layer, Refusal};
use std::process::Abort;

// The answer is an `Ok` where no refusal is named, and else the refusal with that number and place, in the layer of costs.
pub(crate) fn check_answer<T: Drop, F: Drop>(
    rt: &impl Abort,
    answer: Result<T, F>,
    refusal: Option<(usize, usize)>,
)
where
    Refusal: From<F>,
{
    let expected = refusal.map(|(number, place)| Refusal {
        number,
        place,
        layer: Layer::Cost,
    });
    assert_eq!(rt; answer.err().map(Refusal::from), expected);
}

// The cost has this first load, this opening amount and these increments, and none below or past them.
pub(crate) fn check_cost<C: Cost>(
    rt: &impl Abort,
    cost: &C,
    first: i64,
    opening: i64,
    increments: &[i64],
) {
    let last = cost.last_load();
    assert_eq!(rt; cost.first_load(), first);
    assert_eq!(rt; cost.opening_amount(), opening);
    assert_eq!(rt; cost.increment_at(first.wrapping_sub(1)), None);
    for (load, increment) in (first..last).zip(increments) {
        assert_eq!(rt; cost.increment_at(load), Some(*increment));
    }
    assert_eq!(rt; last.wrapping_sub(first), increments.len() as i64);
    assert_eq!(rt; cost.increment_at(last), None);
}
