// Words, numbers and lines as bytes: how they are read, and how they are written.
#![tactic(auto)]

pub mod line;
pub mod number;
pub mod reading;
pub mod writing;
