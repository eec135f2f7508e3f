// Drift, torsion and accidental moments: what is judged and worked out of the displacements of an analysis run, and of the plan of a building.
#![tactic(auto)]

pub mod accidental;
pub mod storey_drift;
pub mod torsion;
