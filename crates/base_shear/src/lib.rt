// The base shear.
#![tactic(auto)]

pub mod base;
pub mod shears;

// V, V_M, V* and V_D in N, and the period in use in ms.
#[derive(Clone, Copy, Debug, Default, PartialEq, Eq)]
pub struct Figures {
    pub v: u64,
    pub vm: u64,
    pub star: u64,
    pub vd: u64,
    pub t: u64,
}
