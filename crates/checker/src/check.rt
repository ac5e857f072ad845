// Check: the lowest waiting piece, as often as told or until none waits.
ghost use Rattle.std.specs.Prelude.{◌≡◌};
ghost use Rattle.plane.specs.Answers.{refusal_number};
ghost use Rattle.sheet.specs.Answers.{ready_number, ready_place};
ghost use Rattle.sheet.specs.Layout.{lent, tables};
ghost use Rattle.sweep.specs.Lending.{layout_of, Kept};
ghost use Rattle.checker.specs.Check.{Checked};
ghost use Rattle.checker.specs.Answers.{check_error, error_number, check_number, check_place, check_done, check_left};
ghost use Rattle.checker.specs.CheckSteps.{Runs, RanTo, RanPieces, CheckTested, CheckedBut};

use plane::answer::Refusal;
use rules::list::RuleList;
use sheet::shape::{Layout, SheetError};
use sweep::lent::Lent;
use sweep::sweep::Ran;
use waits::waits::{lowest_waiting, waiting_pieces};

// How far a check came: the pieces done, and those that still wait.
#[derive(Clone, Copy, PartialEq, Eq)]
pub struct Progress {
    pub done: usize,
    pub left: usize,
}

// Why check says no. One that met a piece without room has done the pieces before it, and says how far it came.
#[derive(Clone, Copy, PartialEq, Eq)]
pub enum CheckError {
    Lengths,
    NoTable,
    BadRule(u16),
    Full(Progress),
}

// What the tests refuse, check refuses.
impl From<SheetError> for CheckError {
    ghost from_gives = { λ e r. r ≡ check_error e };

    fn from(e: SheetError) -> CheckError {
        match e {
            SheetError::Lengths => CheckError::Lengths,
            SheetError::NoTable => CheckError::NoTable,
            SheetError::BadRule(i) => CheckError::BadRule(i),
        }
    }
}

// The number of such a refusal, without what it says beside.
impl From<CheckError> for Refusal {
    ghost from_gives = { λ e r. refusal_number r ≡ error_number e };

    fn from(e: CheckError) -> Refusal {
        match e {
            CheckError::Lengths => Refusal::Lengths,
            CheckError::NoTable => Refusal::NoTable,
            CheckError::BadRule(_) => Refusal::NoRule,
            CheckError::Full(_) => Refusal::Full,
        }
    }
}

// At most n pieces, turn by turn, until none waits or a piece has no room.
pub fn check_run(lent: &mut Lent<'_>, rules: RuleList<'_>, n: usize) -> Ran
    requires { Runs (layout_of lent.old) lent.old.work.now rules.words.now rules.used }
    ensures ran { RanTo (layout_of lent.old) rules.entry.words.now rules.entry.used n result (layout_of lent.new) }
    ensures kept { Kept lent.old lent.new }
{
    let mut done: usize = 0;
    // A while loop: a turn does as many pieces as its row lets it.
    while done < n {
        // Lent on by a name of its own, as in run_pieces: so the proof knows that its words stay.
        let waiting = &mut *lent.waiting;
        let Some(lowest) = lowest_waiting(waiting) else {
            return Ran { done, full: false };
        };
        let turn = lent.one_turn(rules, lowest, n - done);
        done += turn.done;
        if turn.full {
            return Ran { done, full: true };
        }
    }
    Ran { done, full: false }
}

// A run, and the pieces that wait after it.
pub fn run_pieces(
    lent: &mut Lent<'_>,
    rules: RuleList<'_>,
    n: usize,
) -> Result<Progress, CheckError>
    requires { Runs (layout_of lent.old) lent.old.work.now rules.words.now rules.used }
    ensures ran { RanPieces (layout_of lent.old) rules.entry.words.now rules.entry.used n (check_number result) (check_place result) (check_done result) (check_left result) (layout_of lent.new) }
    ensures kept { Kept lent.old lent.new }
{
    let ran = check_run(lent, rules, n);
    let waiting = &mut *lent.waiting;
    let progress = Progress {
        done: ran.done,
        left: waiting_pieces(waiting),
    };
    if ran.full {
        return Err(CheckError::Full(progress));
    }
    Ok(progress)
}

// The tests of check: lengths (1), tables (3), rules (4).
pub fn check_tests(layout: Layout<'_>, work: &[u16], rules: RuleList<'_>) -> Result<(), SheetError>
    ensures { CheckTested (tables layout.entry) work.now rules.entry.words.now rules.entry.used (ready_number result) (ready_place result) }
{
    if work.len() != layout.material.len() {
        return Err(SheetError::Lengths);
    }
    layout.ready(rules)
}

// The same tests of what a run is lent, which they only read.
fn lent_tests(lent: &Lent<'_>, rules: RuleList<'_>) -> Result<(), SheetError>
    ensures { CheckTested (layout_of lent.now) lent.now.work.now rules.entry.words.now rules.entry.used (ready_number result) (ready_place result) }
{
    let layout = Layout {
        material: lent.material,
        errors: lent.errors,
        waiting: lent.waiting,
    };
    check_tests(layout, lent.work, rules)
}

// Check, but for clearing the working room.
fn check_tables(lent: &mut Lent<'_>, rules: RuleList<'_>, n: usize) -> Result<Progress, CheckError>
    ensures checked { CheckedBut (layout_of lent.old) lent.old.work.now rules.entry.words.now rules.entry.used n (check_number result) (check_place result) (check_done result) (check_left result) (layout_of lent.new) }
    ensures kept { Kept lent.old lent.new }
{
    lent_tests(lent, rules)?;
    run_pieces(lent, rules, n)
}

// Does the lowest waiting piece, n times or until none waits. The working room is zero afterwards, whatever the answer.
pub fn check(
    material: &[u16],
    errors: &mut [u16],
    waiting: &mut [u16],
    work: &mut [u16],
    rules: RuleList<'_>,
    n: usize,
) -> Result<Progress, CheckError>
    ensures { Checked (lent material.now errors.old waiting.old) work.old rules.entry.words.now rules.entry.used n (check_number result) (check_place result) (check_done result) (check_left result) (lent material.now errors.new waiting.new) work.new }
{
    let mut lent = Lent {
        material,
        errors,
        waiting,
        work,
    };
    let answer = check_tables(&mut lent, rules, n);
    lent.work.fill(0);
    answer
}
