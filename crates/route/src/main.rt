// The program `route`: drafts the book of an example, prices its tariff, and says which of three routings is cheapest.
#![tactic(auto)]

mod example;
mod tariff;

use anyhow::Context;
use example::{draft, tariffs};
use sheet::sheets::Sheet;
use tariff::{print_answer, print_table};

fn run(rt: &HostRuntime) -> anyhow::Result<()> {
    let mut sheet = Sheet::blank();
    draft(&mut sheet).context("the draft is refused")?;
    let costs = tariffs().context("a cost is refused")?;
    for (a, cost) in costs.iter().enumerate() {
        println!(rt; "arc {}", a + 1)?;
        print_table(rt, cost)?;
    }
    for loads in [[2, 2, 2], [4, 4, 0], [0, 0, 4]].iter() {
        print_answer(rt, "charge", loads, sheet.charge(&costs, loads))?;
    }
    for prices in [[3, 2, 0], [0, 0, 0]].iter() {
        print_answer(rt, "floor", prices, sheet.floor(&costs, prices))?;
    }
    if let Ok(true) = sheet.is_cheapest(&costs, &[2, 2, 2], &[3, 2, 0]) {
        println!(rt; "the charge of 2 2 2 equals the floor of 3 2 0, so 2 2 2 is cheapest")?;
    }
    Ok(())
}

fn main(rt: HostRuntime) -> anyhow::Result<()> {
    run(&rt)
}
