// The stepped cost, a kind of cost that stands in texts under the letter S.

#![tactic(auto)]

pub mod stepped;
