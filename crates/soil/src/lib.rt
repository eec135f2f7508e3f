// The site class of a soil log: layer velocities, times, class, and refusals 2, 13, 14, 15.
#![tactic(auto)]

pub mod class;
pub mod log;
pub mod tables;
pub mod times;
pub mod velocity;
