// A book as its readers see it: what its calls refuse and answer, how it stands, and what its loads and prices come to.
//
// An inner crate: its functions are called by the crates above alone, so they may require what those know. specs/ has the
// book and what each call on it answers and leaves. `faults` has what is refused, `limits` the limits of the numbers, `standing` the three standings and what
// moves them, `pricing` charge and floor over nodes and arcs, and `settling` what settle refuses beforehand and answers.

#![tactic(auto)]

pub mod faults;
pub mod limits;
pub mod pricing;
pub mod settling;
pub mod standing;
