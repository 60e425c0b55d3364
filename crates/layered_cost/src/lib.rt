// Cap and ceiling, the costs that stand over any other cost.

#![tactic(auto)]

pub mod layers;
