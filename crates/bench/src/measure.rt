// Settling one network, and what it took.
use crate::kinds::Kind;
use crate::networks::Plan;
use anyhow::{Context, anyhow};
use cost::costs::Cost;
use cost::refusals::Refusal;
use random::Random;
use sheet::sheets::Sheet;
use std::alloc::Global;
use std::io;
use std::time::{Duration, Instant};

const SEED: u64 = 1;

const ROUNDS: usize = 15;

// A cost for each arc of a network.
// The programs share no costs, so that what checks the router stands apart from what measures it.
fn costs_of<C: Kind>(heap: Global, plan: Plan, random: &mut Random) -> anyhow::Result<Vec<C>> {
    let mut costs = Vec::new(heap);
    for arc in 0..plan.arcs {
        let made = if plan.is_wide(arc) {
            C::wide(random)
        } else {
            C::narrow(random)
        };
        costs
            .push(made.context("a cost is refused")?)
            .map_err(|_| anyhow!("there is no memory for the costs"))?;
    }
    Ok(costs)
}

// A run of the program: what it prints by, and whether it says how long settling took.
#[derive(Clone, Copy)]
pub(crate) struct Bench<'a> {
    pub rt: &'a HostRuntime,
    pub timed: bool,
}

impl<'a> Bench<'a> {
    // The shortest time of several that it took to settle a copy of a sheet.
    fn shortest<C: Cost>(self, sheet: &Sheet, costs: &[C]) -> io::Result<Duration> {
        let rt = self.rt;
        let mut best = Duration::MAX;
        for _ in 0..ROUNDS {
            let mut book = *sheet;
            let start = Instant::now(rt)?;
            let _ = book.settle(costs);
            best = best.min(start.elapsed(rt)?);
        }
        Ok(best)
    }

    // Settles a network, and prints the charge, and if asked for how long that took.
    fn tell<C: Kind>(self, plan: Plan, sheet: &mut Sheet, costs: &[C]) -> io::Result<()> {
        let rt = self.rt;
        let Plan {
            shape,
            nodes,
            arcs,
            requests,
        } = plan;
        let kind = C::WORD;
        print!(rt; "{kind} {shape} {nodes} {arcs} {requests}")?;
        if self.timed {
            let micros = self.shortest(sheet, costs)?.as_micros();
            print!(rt; " {}.{:03} ms", micros / 1_000, micros % 1_000)?;
        }
        match sheet.settle(costs) {
            Ok(amounts) => println!(rt; " charge {}", amounts.charge),
            Err(fault) => println!(rt; " refused {}", Refusal::from(fault).number),
        }
    }

    // Drafts a network, makes its costs, and settles it.
    pub(crate) fn measure<C: Kind>(self, plan: Plan) -> anyhow::Result<()> {
        let heap = self.rt.alloc();
        let mut random = Random::new(SEED);
        let mut sheet = Sheet::blank();
        let supplies = plan.supplies(heap, &mut random)?;
        plan.draft(supplies.as_slice(), &mut random, &mut sheet)
            .context("a draft is refused")?;
        let costs = costs_of::<C>(heap, plan, &mut random)?;
        self.tell(plan, &mut sheet, costs.as_slice())?;
        Ok(())
    }
}
