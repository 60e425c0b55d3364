// Examples of costs and of their refusals, run as tests: each refusal on either side of its edge, layers over each other,
// contents that no constructor made, and rows.

#![tactic(auto)]

#[cfg(test)]
mod checks;
#[cfg(test)]
mod layered;
#[cfg(test)]
mod quadratics;
#[cfg(test)]
mod rows;
#[cfg(test)]
mod steps;
