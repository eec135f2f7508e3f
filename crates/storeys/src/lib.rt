// The storeys: roof force, shears, forces, overturning.
// Weights and heights, and T and V, are handed on apart, and `Weighing`, `Standing`, `Falling` and `Load` stand in clauses: of the two a struct would make
// each clause read `levels.now.weights.now`, and one pass down a list hands on parts of both.
#![tactic(auto)]

pub mod level_force;
pub mod overturning;
pub mod roof_force;
pub mod shear;
pub mod storey;
pub mod weight_height;
