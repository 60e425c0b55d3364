// The program `route_record`: reads the record of a network from standard input, and prints a cheapest routing or why there is none.
#![tactic(auto)]

mod answers;
mod input;
#[cfg(test)]
mod tests;

use answers::{MOST_BYTES, answer_to};
use input::read_input;

// One byte more than the longest record that is read, so that a longer one shows.
const ROOM: usize = MOST_BYTES + 1;

fn run(rt: &HostRuntime) -> anyhow::Result<()> {
    let mut buffer = [0; ROOM];
    let length = read_input(rt, &mut buffer)?;
    rt.print(answer_to(&buffer[..length]))?;
    Ok(())
}

fn main(rt: HostRuntime) -> anyhow::Result<()> {
    run(&rt)
}
