// The program `bench`: settles networks of growing size and prints the charge of each; with the argument `time` also how long it took.
#![tactic(auto)]

mod kinds;
mod measure;
mod networks;

use kinds::Kind;
use measure::Bench;
use networks::{Plan, Shape};
use quadratic_cost::quadratic::Quadratic;
use std::env;
use stepped_cost::stepped::Stepped;

// The networks that are settled with costs of each kind.
fn plans() -> [Plan; 17] {
    [
        // the full size, with more and more requests
        Plan::new(Shape::Ring, 64, 256, 1_000),
        Plan::new(Shape::Ring, 64, 256, 5_000),
        Plan::new(Shape::Ring, 64, 256, 10_000),
        Plan::new(Shape::Ring, 64, 256, 30_000),
        Plan::new(Shape::Ring, 64, 256, 60_000),
        // more and more nodes, four arcs to each
        Plan::new(Shape::Ring, 8, 32, 10_000),
        Plan::new(Shape::Ring, 16, 64, 10_000),
        Plan::new(Shape::Ring, 32, 128, 10_000),
        Plan::new(Shape::Ring, 48, 192, 10_000),
        // 64 nodes with more and more arcs
        Plan::new(Shape::Ring, 64, 96, 5_000),
        Plan::new(Shape::Ring, 64, 128, 5_000),
        Plan::new(Shape::Ring, 64, 192, 5_000),
        // longer and longer chains, four arcs between neighbours, and one with a single arc there
        Plan::new(Shape::Chain, 16, 60, 10_000),
        Plan::new(Shape::Chain, 32, 124, 10_000),
        Plan::new(Shape::Chain, 64, 252, 1_000),
        Plan::new(Shape::Chain, 64, 252, 10_000),
        Plan::new(Shape::Chain, 64, 63, 9_000),
    ]
}

// All networks with costs of one kind.
fn all_of<C: Kind>(bench: Bench) -> anyhow::Result<()> {
    for plan in plans() {
        bench.measure::<C>(plan)?;
    }
    Ok(())
}

fn run(rt: &HostRuntime) -> anyhow::Result<()> {
    let timed = env::args(rt)?.any(|word| word.as_str() == "time");
    let bench = Bench { rt, timed };
    println!(rt; "kind shape nodes arcs requests")?;
    all_of::<Stepped>(bench)?;
    all_of::<Quadratic>(bench)
}

fn main(rt: HostRuntime) -> anyhow::Result<()> {
    run(&rt)
}
