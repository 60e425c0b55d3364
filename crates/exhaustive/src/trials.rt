// A network on trial: made at random, drafted, and edited at random.
ghost use Rattle.std.specs.Prelude.{◌≡◌, ◌<◌, vec_len};

use crate::kinds::Small;
use crate::makers::Maker;
use crate::networks::Network;
use anyhow::{Context, anyhow};
use random::Random;
use sheet::sheets::Sheet;

// A network, the sheet that it is drafted on, and a cost for each of its arcs.
#[derive(Drop)]
pub(crate) struct Trial<C> {
    pub network: Network,
    pub sheet: Sheet,
    pub costs: Vec<C>,
}

// A cost of a kind, made at random.
fn random_cost<C: Small>(random: &mut Random) -> anyhow::Result<C> {
    C::made(random).context("a cost is refused")
}

// A cost for each of so many arcs.
// The programs share no costs, so that what checks the router stands apart from what measures it.
fn random_costs<C: Small>(maker: &mut Maker, arcs: usize) -> anyhow::Result<Vec<C>> {
    let mut costs = Vec::new(maker.heap);
    for _ in 0..arcs {
        costs
            .push(random_cost(&mut maker.random)?)
            .map_err(|_| anyhow!("there is no memory for the costs"))?;
    }
    Ok(costs)
}

impl<C: Small> Trial<C> {
    // Makes a network and its costs, and drafts it.
    pub(crate) fn made(maker: &mut Maker) -> anyhow::Result<Trial<C>> {
        let network = Network::made(maker)?;
        let mut sheet = maker.sheet;
        network.draft(&mut sheet).context("a draft is refused")?;
        let costs = random_costs::<C>(maker, network.arcs.len())?;
        Ok(Trial {
            network,
            sheet,
            costs,
        })
    }

    // Adds to the supply of one node, here and on the sheet.
    fn add_supply(&mut self, v: usize, more: i64) -> anyhow::Result<()>
        requires { v < vec_len self.old.network.supplies }
        ensures { vec_len self.new.network.supplies ≡ vec_len self.old.network.supplies }
    {
        let amount = self.network.supplies[v].wrapping_add(more);
        self.network.supplies[v] = amount;
        self.sheet
            .supply(v as i64 + 1, amount)
            .context("a supply is refused")
    }

    // Moves requests from the supply of a node to that of another.
    pub(crate) fn edit_supplies(&mut self, random: &mut Random) -> anyhow::Result<()> {
        let nodes = self.network.supplies.len();
        let (v, w) = (random.place(nodes), random.place(nodes));
        let moved = random.between(-2, 2);
        self.add_supply(v, moved)?;
        self.add_supply(w, moved.wrapping_neg())
    }

    // Swaps the cost of one arc for another.
    pub(crate) fn edit_cost(&mut self, random: &mut Random) -> anyhow::Result<()> {
        let arcs = self.network.arcs.len();
        if arcs == 0 {
            return Ok(());
        }
        let cost = random_cost(random)?;
        let arc = random.place(arcs) as i64 + 1;
        self.sheet
            .swap(arc, cost, self.costs.as_mut_slice())
            .context("a swap is refused")
    }
}
