// Examples of records, run as tests: each line of the form broken in each way, every refusal from below, and records that
// are read, written and read again.

#![tactic(auto)]

#[cfg(test)]
mod below;
#[cfg(test)]
mod checks;
#[cfg(test)]
mod costs_form;
#[cfg(test)]
mod form;
#[cfg(test)]
mod large;
#[cfg(test)]
mod lists_form;
#[cfg(test)]
mod round;
