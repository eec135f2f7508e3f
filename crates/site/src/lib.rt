// From a site, or a zone of the Taipei Basin, to the hazards of its shears.
#![tactic(auto)]

pub mod basin;
pub mod capacity;
pub mod coefficients;
pub mod ground;
pub mod hazard;
pub mod lines;
pub mod site_hazards;
pub mod table2;
pub mod table4;
