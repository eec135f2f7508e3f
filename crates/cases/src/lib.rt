// What the programs share that the gate runs on cases: a case's ground and its changes, and how an answer is said.
#![tactic(auto)]

pub mod changed;
pub mod entered;
pub mod said;
