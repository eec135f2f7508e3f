// The shear call: V, V_M, V*, V_D and T of a building without its storeys.
ghost use Rattle.job.specs.ShearCall.{Sheared};

use crate::figures::building_figures;
use base_shear::Figures;
use limits::building::Building;
use limits::judging::{GivenValues, judged_given};
use limits::refusal::Refusal;

// Of a ground, a frame and a building: the five figures.
pub fn shear_call(given: GivenValues, building: Building) -> Result<Figures, Refusal>
    ensures { Sheared given.ground given.frame building.weight building.height result }
{
    let given = judged_given(building.judged(), given)?;
    Ok(building_figures(given, building.weight, building.height))
}
