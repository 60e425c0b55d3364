// Networks tried one after another, and the tally of the outcomes.
use crate::compare::Outcome;
use crate::kinds::Small;
use crate::makers::Maker;
use crate::trials::Trial;
use random::Random;
use sheet::sheets::Sheet;
use std::alloc::Global;

const SEED: u64 = 7;

// How many settlings had which outcome, and how many routings were met that try every routing found.
#[derive(Clone, Copy, Default)]
pub(crate) struct Tally {
    pub settled: u64,
    pub barred: u64,
    pub unbalanced: u64,
    pub differing: u64,
    pub routings: u64,
}

impl Tally {
    // Counts one settling and the routings that were met.
    fn count(&mut self, (outcome, met): (Outcome, u64)) {
        let settlings = match outcome {
            Outcome::Settled => &mut self.settled,
            Outcome::Barred => &mut self.barred,
            Outcome::Unbalanced => &mut self.unbalanced,
            Outcome::Differs => &mut self.differing,
        };
        *settlings = settlings.saturating_add(1);
        self.routings = self.routings.saturating_add(met);
    }
}

// Makes a network, settles it, edits its supplies, settles it, swaps a cost, and settles it again.
fn try_one<C: Small>(maker: &mut Maker, tally: &mut Tally) -> anyhow::Result<()> {
    let mut trial = Trial::<C>::made(maker)?;
    tally.count(trial.compare(maker.heap)?);
    trial.edit_supplies(&mut maker.random)?;
    tally.count(trial.compare(maker.heap)?);
    trial.edit_cost(&mut maker.random)?;
    tally.count(trial.compare(maker.heap)?);
    maker.sheet = trial.sheet;
    Ok(())
}

// Tries networks of one kind of cost.
pub(crate) fn try_many<C: Small>(heap: Global, networks: u64) -> anyhow::Result<Tally> {
    let random = Random::new(SEED);
    let mut maker = Maker {
        heap,
        random,
        sheet: Sheet::blank(),
    };
    let mut tally = Tally::default();
    for _ in 0..networks {
        try_one::<C>(&mut maker, &mut tally)?;
    }
    Ok(tally)
}
