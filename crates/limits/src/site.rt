// The site line of a job: mapped values, near-fault factors and class, with their limits and their judgments, 5 to 7.
ghost use Rattle.std.specs.Prelude.{◌≡◌, ◌≤◌, length};
ghost use Rattle.limits.specs.Site.{site_values, judged_mapped, judged_near_fault, judged_site};
ghost use Rattle.limits.specs.Outcome.{outcome};
ghost use Rattle.limits.specs.Ranges.{within, listed};

use crate::class::Class;
use crate::ranges::{listed, within};
use crate::refusal::{Number, Refusal};

// The site line as it comes: S_S and S_1 of the design level, S_S and S_1 of the MCE level, in 0.01 g; N_A and N_V of the
// design level, N_A and N_V of the MCE level, in 0.01; class.
#[derive(Clone, Copy)]
pub struct SiteValues {
    pub ssd: u64,
    pub s1d: u64,
    pub ssm: u64,
    pub s1m: u64,
    pub nad: u64,
    pub nvd: u64,
    pub nam: u64,
    pub nvm: u64,
    pub class: u64,
}

impl SiteValues {
    // Of the nine numbers of a site line, in its order: no `From`, as it asks for so many.
    pub fn of(numbers: &[u64]) -> SiteValues
        requires { 9 ≤ length numbers.now }
        ensures { result ≡ site_values numbers.now }
    {
        SiteValues {
            ssd: numbers[0],
            s1d: numbers[1],
            ssm: numbers[2],
            s1m: numbers[3],
            nad: numbers[4],
            nvd: numbers[5],
            nam: numbers[6],
            nvm: numbers[7],
            class: numbers[8],
        }
    }
}

// The site line, judged.
// As they come and as judged are two types: one over the type of the class would put a type argument into every contract and definition that names either.
#[derive(Clone, Copy)]
pub struct Site {
    pub ssd: u64,
    pub s1d: u64,
    pub ssm: u64,
    pub s1m: u64,
    pub nad: u64,
    pub nvd: u64,
    pub nam: u64,
    pub nvm: u64,
    pub class: Class,
}

impl Site {
    pub const SS_DESIGN: [u64; 4] = [50, 60, 70, 80];

    pub const S1_DESIGN: [u64; 4] = [30, 35, 40, 45];

    pub const SS_MCE: [u64; 4] = [70, 80, 90, 100];

    pub const S1_MCE: [u64; 4] = [40, 45, 50, 55];

    pub const NA_LEAST: u64 = 100;

    pub const NA_MOST: u64 = 150;

    pub const NV_LEAST: u64 = 100;

    pub const NV_MOST: u64 = 200;

    // The places of a mapped value and of a near-fault factor, each in sheet order.
    pub const AT_SS_DESIGN: u64 = 1;

    pub const AT_S1_DESIGN: u64 = 2;

    pub const AT_SS_MCE: u64 = 3;

    pub const AT_S1_MCE: u64 = 4;

    pub const AT_NA_DESIGN: u64 = 1;

    pub const AT_NV_DESIGN: u64 = 2;

    pub const AT_NA_MCE: u64 = 3;

    pub const AT_NV_MCE: u64 = 4;

    // 5: the mapped values.
    #[tactic(auto, unfolding(crate::specs::Site::judged_mapped))]
    pub fn judged_mapped(v: SiteValues) -> Result<(), Refusal>
        ensures { outcome result ≡ judged_mapped v }
    {
        Self::mapped(&Self::SS_DESIGN, v.ssd, Self::AT_SS_DESIGN)?;
        Self::mapped(&Self::S1_DESIGN, v.s1d, Self::AT_S1_DESIGN)?;
        Self::mapped(&Self::SS_MCE, v.ssm, Self::AT_SS_MCE)?;
        Self::mapped(&Self::S1_MCE, v.s1m, Self::AT_S1_MCE)
    }

    fn mapped(values: &[u64], x: u64, place: u64) -> Result<(), Refusal>
        ensures { outcome result ≡ listed values.now x 5 place }
    {
        listed(values, x, Refusal::at(Number::Mapped, place))
    }

    // 6: the near-fault factors, of the design level, then of the MCE level.
    #[tactic(auto, unfolding(crate::specs::Site::judged_near_fault))]
    pub fn judged_near_fault(v: SiteValues) -> Result<(), Refusal>
        ensures { outcome result ≡ judged_near_fault v }
    {
        Self::near_fault(Self::NA_LEAST, Self::NA_MOST, v.nad, Self::AT_NA_DESIGN)?;
        Self::near_fault(Self::NV_LEAST, Self::NV_MOST, v.nvd, Self::AT_NV_DESIGN)?;
        Self::near_fault(Self::NA_LEAST, Self::NA_MOST, v.nam, Self::AT_NA_MCE)?;
        Self::near_fault(Self::NV_LEAST, Self::NV_MOST, v.nvm, Self::AT_NV_MCE)
    }

    fn near_fault(least: u64, most: u64, x: u64, place: u64) -> Result<(), Refusal>
        ensures { outcome result ≡ within least most x 6 place }
    {
        within(least, most, x, Refusal::at(Number::NearFault, place))
    }

    // 5, 6, 7 in turn.
    #[tactic(auto, unfolding(crate::specs::Site::judged_site))]
    pub fn judged(v: SiteValues) -> Result<Site, Refusal>
        ensures { outcome result ≡ judged_site v }
    {
        Self::judged_mapped(v)?;
        Self::judged_near_fault(v)?;
        let class = Class::try_from(v.class)?;
        Ok(Site {
            ssd: v.ssd,
            s1d: v.s1d,
            ssm: v.ssm,
            s1m: v.s1m,
            nad: v.nad,
            nvd: v.nvd,
            nam: v.nam,
            nvm: v.nvm,
            class,
        })
    }
}
