// The quadratic cost, a kind of cost that stands in texts under the letter Q.

#![tactic(auto)]

pub mod quadratic;
