// V, V_M, V*, V_D and T.
ghost use Rattle.std.specs.Prelude.{◌≡◌, ◌≤◌, max};
ghost use Rattle.limits.specs.Allowed.{AllowedFrame};
ghost use Rattle.limits.specs.Building.{total_most};
ghost use Rattle.base_shear.specs.Ready.{Reached, Shearing};
ghost use Rattle.base_shear.specs.Shears.{base_figures, figures_at};

use crate::Figures;
use crate::shears::{blended_at, modified_at, newtons};
use limits::frame::Frame;
use response::UNIT;
use response::period::period_of;
use site::hazard::Hazards;

// The figures of three hazards at a period: s is the unit.
pub fn figures_at(s: u64, k: Hazards, f: Frame, w: u64, t: u64) -> Figures
    requires { Shearing s k t × AllowedFrame f × (w ≤ total_most) }
    ensures { result ≡ figures_at s k f w t }
{
    let v = newtons(s, k.divisor, f, w, modified_at(s, k.lines, k.design, t));
    let vm = newtons(s, k.divisor, f, w, modified_at(s, k.lines, k.mce, t));
    let star = newtons(s, k.stardivisor, f, w, blended_at(s, k.lines, k.star, t));
    let vd = v.max(vm).max(star);
    Figures { v, vm, star, vd, t }
}

// The five figures of three hazards, whatever made them, a judged frame, a total weight in kN and a top height in dm.
// Weight and height are judged numbers: types of them would be built of W and h for this one call.
pub fn base_figures(hazards: Hazards, frame: Frame, weight: u64, height: u64) -> Figures
    requires { Reached hazards × AllowedFrame frame × (weight ≤ total_most) × (1 ≤ height) × (height ≤ 2000) }
    ensures { result ≡ base_figures hazards frame weight height }
{
    let t = period_of(frame.kind, frame.calculated, height);
    figures_at(UNIT, hazards, frame, weight, t)
}
