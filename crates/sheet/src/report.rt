// Report on an area: is it settled, which waiting alone says, and what errors are recorded in it, which errors alone says.
ghost use Rattle.std.specs.Prelude.{◌≡◌, ◌≤◌, cond};
ghost use Rattle.plane.specs.Answers.{refusal_number};
ghost use Rattle.plane.specs.Area.{AreaIn};
ghost use Rattle.plane.specs.Words.{width, height};
ghost use Rattle.sheet.specs.Answers.{as_report, error_number, errors_number, errors_squares, errors_tiles, report_number, report_place, found_by};
ghost use Rattle.sheet.specs.Layout.{tables};
ghost use Rattle.sheet.specs.Ready.{Fit};
ghost use Rattle.sheet.specs.Report.{around, settled, Reported};
ghost use Rattle.sheet.specs.Steps.{ErrorsFound};

use crate::shape::{Layout, SheetError};
use plane::answer::Refusal;
use plane::table::Table;
use plane::tile::Area;
use rules::list::RuleList;

// The type of a marked square, in the errors and in what waits.
const MARKED: u16 = 1;

// What is found in an area: is it settled, how many error squares are recorded in it, and how many error tiles meet it.
#[derive(Clone, Copy, PartialEq, Eq)]
pub struct Found {
    pub settled: bool,
    pub squares: usize,
    pub tiles: usize,
}

// What speaks against a report: the layout or its rules, the area, or the room for the listing.
#[derive(Clone, Copy, PartialEq, Eq)]
pub enum ReportError {
    Lengths,
    NoTable,
    BadRule(u16),
    Place,
    Full,
}

// What speaks against a layout speaks against a report on it.
impl From<SheetError> for ReportError {
    ghost from_gives = { λ e r. r ≡ as_report e };

    fn from(e: SheetError) -> ReportError {
        match e {
            SheetError::Lengths => ReportError::Lengths,
            SheetError::NoTable => ReportError::NoTable,
            SheetError::BadRule(i) => ReportError::BadRule(i),
        }
    }
}

// The number of such a refusal, without its place.
impl From<ReportError> for Refusal {
    ghost from_gives = { λ e r. refusal_number r ≡ error_number e };

    fn from(e: ReportError) -> Refusal {
        match e {
            ReportError::Lengths => Refusal::Lengths,
            ReportError::NoTable => Refusal::NoTable,
            ReportError::BadRule(_) => Refusal::NoRule,
            ReportError::Place => Refusal::Place,
            ReportError::Full => Refusal::Full,
        }
    }
}

// The errors recorded in an area: the squares, and the tiles that are listed.
#[derive(Clone, Copy, PartialEq, Eq)]
pub struct Errors {
    pub squares: usize,
    pub tiles: usize,
}

// The squares of a window w by h within k of an area.
// AreaIn stands here and in the two below: it is said of an area and a window together, so neither carries it.
fn around(w: u16, h: u16, k: u16, a: Area) -> Area
    requires { (AreaIn w h a) × (w ≤ 4096) × (h ≤ 4096) × (k ≤ 16) }
    ensures { result ≡ around w h k a }
{
    Area {
        x1: a.x1.saturating_sub(k),
        y1: a.y1.saturating_sub(k),
        x2: w.min(a.x2 + k),
        y2: h.min(a.y2 + k),
    }
}

// Is an area settled: no waiting square lies within k of it? Not a public call: its caller has tested the table and the area.
#[tactic(auto, using(crate::proofs::Reports::settled_by_count))]
pub fn settled_in(waiting: &Table<'_>, k: u16, a: Area) -> bool
    requires { (AreaIn (width waiting.now) (height waiting.now) a) × (k ≤ 16) }
    ensures { cond result 1 0 ≡ settled waiting.now k a }
{
    let near = around(waiting.width(), waiting.height(), k, a);
    waiting.count_squares(MARKED, near) == 0
}

// The errors recorded in an area, counted and listed; none where the listing has no room. Not a public call either.
#[tactic(auto, using(crate::proofs::Reports::errors_full))]
pub fn errors_in(errors: &Table<'_>, a: Area, out: &mut [u16]) -> Option<Errors>
    requires { AreaIn (width errors.now) (height errors.now) a }
    ensures { ErrorsFound errors.now a out.old (errors_number result) (errors_squares result) (errors_tiles result) out.new }
{
    let tiles = errors.list_tiles(MARKED, a, out, 0);
    if out.len() < tiles {
        return None;
    }
    errors.list_tiles(MARKED, a, out, tiles);
    let squares = errors.count_squares(MARKED, a);
    Some(Errors { squares, tiles })
}

// Report on a layout and rules that are good.
#[tactic(auto, using(plane::proofs::FromTable::table_plane, crate::proofs::Shapes::marks_area))]
fn report_in(
    layout: Layout<'_>,
    rules: RuleList<'_>,
    a: Area,
    out: &mut [u16],
) -> Result<Found, ReportError>
    requires { Fit (tables layout) rules.words.now rules.used }
    ensures { Reported (tables layout.entry) rules.entry.words.now rules.entry.used a out.old (report_number result) (report_place result) (found_by result out.new) }
{
    if !a.lies_in(layout.material[1], layout.material[2]) {
        return Err(ReportError::Place);
    }
    let halo = rules.halo();
    let settled = settled_in(&Table::of(layout.waiting), halo, a);
    let errors = errors_in(&Table::of(layout.errors), a, out).ok_or(ReportError::Full)?;
    Ok(Found {
        settled,
        squares: errors.squares,
        tiles: errors.tiles,
    })
}

// Is the area settled, how many error squares are recorded in it, and which error tiles meet it? Their numbers are written to the slice.
pub fn report(
    layout: Layout<'_>,
    rules: RuleList<'_>,
    a: Area,
    out: &mut [u16],
) -> Result<Found, ReportError>
    ensures { Reported (tables layout.entry) rules.entry.words.now rules.entry.used a out.old (report_number result) (report_place result) (found_by result out.new) }
{
    layout.ready(rules)?;
    report_in(layout, rules, a, out)
}
