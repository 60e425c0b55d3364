// The program `exhaustive`: makes small networks of each kind of cost, settles them, edits them and settles them again, and compares each
// answer with what trying every routing gives.
#![tactic(auto)]

mod compare;
mod kinds;
mod makers;
mod networks;
mod routings;
mod trials;
mod tries;

use anyhow::anyhow;
use kinds::Small;
use layered_cost::layers::{Cap, Ceiling};
use quadratic_cost::quadratic::Quadratic;
use stepped_cost::stepped::Stepped;
use tries::{Tally, try_many};

const NETWORKS: u64 = 4_000;

// Tries networks of one kind of cost and prints what came of them.
fn tell<C: Small>(rt: &HostRuntime) -> anyhow::Result<bool> {
    let tally = try_many::<C>(rt.alloc(), NETWORKS)?;
    let Tally {
        settled,
        barred,
        unbalanced,
        differing,
        routings,
    } = tally;
    let word = C::WORD;
    println!(rt;
        "{word}: {settled} settled, {barred} barred, {unbalanced} unbalanced, {differing} differing; {routings} routings met"
    )?;
    Ok(differing == 0)
}

fn run(rt: &HostRuntime) -> anyhow::Result<()> {
    let agree = [
        tell::<Stepped>(rt)?,
        tell::<Quadratic>(rt)?,
        tell::<Cap<Stepped>>(rt)?,
        tell::<Ceiling<Quadratic>>(rt)?,
        tell::<Cap<Ceiling<Stepped>>>(rt)?,
    ];
    if agree.iter().all(|agree| *agree) {
        println!(rt; "settling and trying every routing never differ")?;
        Ok(())
    } else {
        Err(anyhow!("settling and trying every routing differ"))
    }
}

fn main(rt: HostRuntime) -> anyhow::Result<()> {
    run(&rt)
}
