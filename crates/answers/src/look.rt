// The commands that ask: check, which does waiting pieces, and report.
ghost use Rattle.std.specs.Prelude.{true, ◌≡◌, ℕ};
ghost use Rattle.checker.specs.Answers.{check_number, check_done, check_left};
ghost use Rattle.desk.specs.Answers.{told};
ghost use Rattle.desk.specs.Model.{checked_by, reported_on};

use checker::check::{CheckError, Progress, check};
use desk::state::{Desk, Refused};
use plane::answer::Refusal;
use plane::tile::Area;
use replies::reply::Reply;
use rules::list::RuleList;
use sheet::report::report;
use sheet::shape::Layout;

// check answer done left.
fn check_reply(ran: Result<Progress, CheckError>) -> Reply
    ensures { result ≡ Reply.Check (check_number ran) (check_done ran) (check_left ran) }
{
    let (answer, progress) = match ran {
        Ok(progress) => (0, progress),
        Err(CheckError::Full(progress)) => (7, progress),
        Err(e) => (Refusal::from(e) as u8, Progress { done: 0, left: 0 }),
    };
    Reply::Check {
        answer,
        done: progress.done as u64,
        left: progress.left as u64,
    }
}

// check n: the lowest waiting piece, n times or until none waits.
pub fn check_pieces(desk: &mut Desk, n: u16) -> Reply
    ensures { desk.old.model.ready ≡ true → (desk.new.model, result) ≡ checked_by desk.old.model n }
{
    let rules = RuleList {
        words: &desk.rules,
        used: desk.used,
    };
    check_reply(check(
        &desk.material,
        &mut desk.errors,
        &mut desk.waiting,
        &mut desk.work,
        rules,
        usize::from(n),
    ))
}

// report on an area, whose tiles fit the listing: only the place may be refused.
pub fn report_area(desk: &Desk, a: Area) -> Result<Reply, Refused>
    ensures { desk.now.model.ready ≡ true → (line : ℕ) → told result line ≡ reported_on desk.now.model line a }
{
    let layout = Layout {
        material: &desk.material,
        errors: &desk.errors,
        waiting: &desk.waiting,
    };
    let rules = RuleList {
        words: &desk.rules,
        used: desk.used,
    };
    let mut listing = [0u16; 400];
    let found = report(layout, rules, a, &mut listing).map_err(Refusal::from)?;
    Ok(Reply::Report {
        settled: u64::from(found.settled),
        squares: found.squares as u64,
        tiles: found.tiles as u64,
    })
}
