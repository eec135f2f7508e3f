// How a sheet is read: line 1, line 2 and the level lines, or 17, then 16.
ghost use Rattle.std.specs.Prelude.{◌≡◌, [], ◌∷◌};
ghost use Rattle.text.specs.Reading.{and_rest};
ghost use Rattle.sheet.specs.Layouts.{first_of};
ghost use Rattle.sheet.specs.Lines.{line_in};
ghost use Rattle.sheet.specs.Reading.{ground_line_answer, sheet_lines, read_sheet, sheet_read};
ghost use Rattle.sheet.specs.Sheet.{one_pair_layout, two_pairs_layout, basin_layout, sheet_form};

use crate::layout::{
    BASIN_NUMBERS, FRAME_LINE, FRAME_NUMBERS, GROUND_LINE, ONE_PAIR_NUMBERS, TWO_PAIRS_NUMBERS,
};
use crate::levels::{LevelsRead, level_lines};
use limits::frame::FrameValues;
use limits::ground::GroundValues;
use limits::judging::GivenValues;
use limits::refusal::{Number, Refusal};
use limits::sheet::Sheet;
use limits::site::SiteValues;
use text::line::line;

// What line 1, line 2 and the level lines hold.
#[derive(Clone, Copy)]
pub struct SheetRead {
    pub given: GivenValues,
    pub levels: LevelsRead,
}

// A site line with one pair, which is for both hazard levels.
fn one_pair_line(s: &[u8]) -> Option<(GroundValues, &[u8])>
    ensures { and_rest result ≡ ground_line_answer (line_in 1 (one_pair_layout ∷ []) s.now) }
{
    let (n, second) = line::<ONE_PAIR_NUMBERS>(s, b"site")?;
    let [ssd, s1d, ssm, s1m, na, nv, class] = n;
    let values = SiteValues::of(&[ssd, s1d, ssm, s1m, na, nv, na, nv, class]);
    Some((GroundValues::Site(values), second))
}

// A site line with a pair for each hazard level.
fn two_pairs_line(s: &[u8]) -> Option<(GroundValues, &[u8])>
    ensures { and_rest result ≡ ground_line_answer (line_in 1 (two_pairs_layout ∷ []) s.now) }
{
    let (n, second) = line::<TWO_PAIRS_NUMBERS>(s, b"site")?;
    Some((GroundValues::Site(SiteValues::of(&n)), second))
}

// A basin line.
fn basin_line(s: &[u8]) -> Option<(GroundValues, &[u8])>
    ensures { and_rest result ≡ ground_line_answer (line_in 1 (basin_layout ∷ []) s.now) }
{
    let (n, second) = line::<BASIN_NUMBERS>(s, b"basin")?;
    let [zone] = n;
    Some((GroundValues::Basin(zone), second))
}

// Line 1, by the first of its layouts that it fits.
fn ground_line(s: &[u8]) -> Option<(GroundValues, &[u8])>
    ensures { and_rest result ≡ ground_line_answer (line_in 1 (first_of sheet_form) s.now) }
{
    one_pair_line(s)
        .or_else(|| two_pairs_line(s))
        .or_else(|| basin_line(s))
}

// Line 1, line 2, and all later lines, each from where the one before it ended.
pub fn sheet_lines(s: &[u8]) -> Result<SheetRead, Refusal>
    ensures { result ≡ sheet_read (sheet_lines s.now) }
{
    let (ground, second) = ground_line(s).ok_or(Refusal::at(Number::Line, GROUND_LINE))?;
    let (n, third) = line::<FRAME_NUMBERS>(second, b"frame").ok_or(Refusal::at(
        Number::Line,
        FRAME_LINE,
    ))?;
    let levels = level_lines(third)?;
    Ok(SheetRead {
        given: GivenValues {
            ground,
            frame: FrameValues::of(&n),
        },
        levels,
    })
}

// A sheet of any bytes: 17 precedes everything.
pub fn read_sheet(s: &[u8]) -> Result<SheetRead, Refusal>
    ensures { result ≡ sheet_read (read_sheet s.now) }
{
    if Sheet::BYTES_MOST < s.len() as u64 {
        return Err(Number::Sheet.into());
    }
    sheet_lines(s)
}
