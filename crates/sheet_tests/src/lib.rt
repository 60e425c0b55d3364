// Examples of drafts, look-ups, charges, floors, edits, settlings and chains of calls, run as tests: each refusal on either side of
// its edge, and the order where two conditions hold.

#![tactic(auto)]

#[cfg(test)]
mod chains;
#[cfg(test)]
mod checks;
#[cfg(test)]
mod drafts;
#[cfg(test)]
mod edits;
#[cfg(test)]
mod prices;
#[cfg(test)]
mod settles;
