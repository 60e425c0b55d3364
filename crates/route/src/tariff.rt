// What is printed of a tariff.
use cost::costs::{Cost, amount_at};
use cost::refusals::Refusal;
use sheet::faults::SheetFault;
use std::io;

// Prints each load of the range with its increment, which the last load lacks, and its amount.
pub(crate) fn print_table<C: Cost>(rt: &HostRuntime, cost: &C) -> io::Result<()> {
    println!(rt; "load increment amount")?;
    for load in cost.first_load()..=cost.last_load() {
        match (cost.increment_at(load), amount_at(cost, load)) {
            (Some(increment), Some(amount)) => println!(rt; "{load} {increment} {amount}")?,
            (None, Some(amount)) => println!(rt; "{load} - {amount}")?,
            (_, None) => {}
        }
    }
    Ok(())
}

// Prints what a sheet answers for three numbers, or the number of the refusal.
pub(crate) fn print_answer(
    rt: &HostRuntime,
    word: &str,
    numbers: &[i64; 3],
    answer: Result<i64, SheetFault>,
) -> io::Result<()> {
    let [x, y, z] = *numbers;
    match answer {
        Ok(amount) => println!(rt; "{word} of {x} {y} {z} is {amount}"),
        Err(fault) => {
            let number = Refusal::from(fault).number;
            println!(rt; "{word} of {x} {y} {z} refused {number}")
        }
    }
}
