// The quantities of a job, of its two calls, of a soil log, of a sheet, of a district and of drift and torsion: their limits, who judges them, and
// what a refusal says.
#![tactic(auto)]

pub mod building;
pub mod class;
pub mod displacement;
pub mod district;
pub mod drift;
pub mod drift_limit;
pub mod floor;
pub mod frame;
pub mod ground;
pub mod handed;
pub mod judging;
pub mod kind;
pub mod layer;
pub mod lengths;
pub mod level;
pub mod levels;
pub mod plan;
pub mod ranges;
pub mod refusal;
pub mod sheet;
pub mod site;
pub mod zone;
