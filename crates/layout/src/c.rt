// The calls as C sees them: numbers and slices of words, and one number returned. Bits 0 to 7 are the answer's number, and the others are laid out as specs/Pack says.
ghost use Rattle.std.specs.Prelude.{◌≡◌, ◌≤◌};
ghost use Rattle.plane.specs.Answers.{number, value};
ghost use Rattle.plane.specs.Picture.{area};
ghost use Rattle.macros.specs.Expansion.{Widened, Spaced};
ghost use Rattle.sheet.specs.Answers.{report_number, report_place, report_settled, report_squares, report_tiles};
ghost use Rattle.checker.specs.Answers.{check_number, check_place, check_done, check_left};
ghost use Rattle.drawing.specs.Create.{Created};
ghost use Rattle.sheet.specs.Layout.{lent};
ghost use Rattle.layout.specs.Pack.{pack_check, NarrowCheck, CheckPacked, pack_report, pack_macro, Narrow, ReportPacked, PointPacked, MacroPacked};
ghost use Rattle.drawing.specs.Paint.{Painted};

use ask::handle::point;
use checker::check::{CheckError, Progress, check};
use drawing::create::create;
use drawing::painting::paint;
use macros::macros::{spacing, width};
use plane::answer::{Refusal, answer_number};
use plane::tile::Area;
use rules::list::RuleList;
use sheet::report::{Found, ReportError, report};
use sheet::shape::Layout;

// A report's answer in one number.
fn pack_report(r: Result<Found, ReportError>) -> u64
    requires { Narrow (report_place r) (report_settled r) (report_squares r) (report_tiles r) }
    ensures { result ≡ pack_report (report_number r) (report_place r) (report_settled r) (report_squares r) (report_tiles r) }
{
    match r {
        Ok(found) => {
            131072 * u64::from(found.settled)
                + 262144 * (found.squares as u64)
                + 8796093022208 * (found.tiles as u64)
        }
        Err(ReportError::BadRule(i)) => u64::from(Refusal::NoRule) + 256 * u64::from(i),
        Err(e) => u64::from(Refusal::from(e)),
    }
}

// What check did and left, in its bits.
fn pack_progress(p: Progress) -> u64
    requires { (p.done ≤ 65535) × (p.left ≤ 65536) }
    ensures { result ≡ pack_check 0 0 p.done p.left }
{
    131072 * (p.done as u64) + 8589934592 * (p.left as u64)
}

// Check's answer in one number.
fn pack_check(r: Result<Progress, CheckError>) -> u64
    requires { NarrowCheck (check_place r) (check_done r) (check_left r) }
    ensures { result ≡ pack_check (check_number r) (check_place r) (check_done r) (check_left r) }
{
    match r {
        Ok(p) => pack_progress(p),
        Err(CheckError::Full(p)) => u64::from(Refusal::Full) + pack_progress(p),
        Err(CheckError::BadRule(i)) => u64::from(Refusal::NoRule) + 256 * u64::from(i),
        Err(e) => u64::from(Refusal::from(e)),
    }
}

// The answer of a question or of a macro in one number: the value that it gives lies above its number.
fn pack_value(r: Result<usize, Refusal>) -> u64
    requires { value r ≤ 65535 }
    ensures { result ≡ pack_macro (number r) (value r) }
{
    match r {
        Ok(given) => 131072 * (given as u64),
        Err(why) => u64::from(why),
    }
}

// The call create: a new layout, whose window is one tile of space, with no error and nothing waiting.
#[unsafe(no_mangle)]
pub extern "C" fn layout_create(
    material: &mut [u16],
    errors: &mut [u16],
    waiting: &mut [u16],
    w: u16,
    h: u16,
    t: u16,
) -> u64
    ensures { Created (lent material.old errors.old waiting.old) w h t result (lent material.new errors.new waiting.new) }
{
    answer_number(create(material, errors, waiting, w, h, t))
}

// The call paint: an area of the material is set to a type, and waits.
#[unsafe(no_mangle)]
pub extern "C" fn layout_paint(
    material: &mut [u16],
    errors: &[u16],
    waiting: &mut [u16],
    work: &mut [u16],
    x1: u16,
    y1: u16,
    x2: u16,
    y2: u16,
    kind: u16,
) -> u64
    ensures { Painted (lent material.old errors.now waiting.old) work.old (area x1 y1 x2 y2) kind result (lent material.new errors.now waiting.new) work.new }
{
    let a = Area { x1, y1, x2, y2 };
    answer_number(paint(material, errors, waiting, work, a, kind))
}

// The call check: the lowest waiting piece is done, as often as told or until none waits.
#[unsafe(no_mangle)]
pub extern "C" fn layout_check(
    material: &[u16],
    errors: &mut [u16],
    waiting: &mut [u16],
    work: &mut [u16],
    rules: &[u16],
    used: u16,
    times: u16,
) -> u64
    ensures { CheckPacked (lent material.now errors.old waiting.old) work.old rules.now used times result (lent material.now errors.new waiting.new) work.new }
{
    let rules = RuleList {
        words: rules,
        used: usize::from(used),
    };
    pack_check(check(material, errors, waiting, work, rules, usize::from(times)))
}

// The call report: whether an area is settled, and the errors recorded in it.
#[unsafe(no_mangle)]
pub extern "C" fn layout_report(
    material: &[u16],
    errors: &[u16],
    waiting: &[u16],
    rules: &[u16],
    used: u16,
    x1: u16,
    y1: u16,
    x2: u16,
    y2: u16,
    tiles: &mut [u16],
) -> u64
    ensures { ReportPacked (lent material.now errors.now waiting.now) rules.now used (area x1 y1 x2 y2) tiles.old result tiles.new }
{
    let layout = Layout {
        material,
        errors,
        waiting,
    };
    let rules = RuleList {
        words: rules,
        used: usize::from(used),
    };
    pack_report(report(layout, rules, Area { x1, y1, x2, y2 }, tiles))
}

// The call point: the tile that holds a square of a table.
#[unsafe(no_mangle)]
pub extern "C" fn layout_point(table: &[u16], x: u16, y: u16) -> u64
    ensures { PointPacked table.now x y result }
{
    pack_value(point(table, x, y).map(usize::from))
}

// The call width: the rules that forbid a set's parts narrower than d, appended to a list.
#[unsafe(no_mangle)]
pub extern "C" fn layout_width(
    rules: &mut [u16],
    used: u16,
    t: u16,
    set: u16,
    d: u16,
    reason: u16,
) -> u64
    ensures { MacroPacked (λ n k. Widened rules.old used t set d reason n k rules.new) result }
{
    pack_value(width(rules, usize::from(used), t, set, d, reason))
}

// The call spacing: the rules that forbid two sets nearer than d, appended to a list.
#[unsafe(no_mangle)]
pub extern "C" fn layout_spacing(
    rules: &mut [u16],
    used: u16,
    t: u16,
    a: u16,
    b: u16,
    d: u16,
    touch: u16,
    reason: u16,
) -> u64
    ensures { MacroPacked (λ n k. Spaced rules.old used t a b d touch reason n k rules.new) result }
{
    pack_value(spacing(rules, usize::from(used), t, a, b, d, touch, reason))
}
