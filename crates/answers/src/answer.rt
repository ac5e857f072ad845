// The answer to a line's command: before an accepted `new`, and after it.
ghost use Rattle.std.specs.Prelude.{true, ◌≡◌, ◌≤◌, ℕ};
ghost use Rattle.desk.specs.Answers.{told};
ghost use Rattle.desk.specs.Model.{kinds_of, obeyed, answered};

use crate::look::{check_pieces, report_area};
use commands::command::Command;
use desk::state::{Desk, Refused};
use plane::tile::Area;
use replies::reply::Reply;
use rules::rule::Rule;

// A command after an accepted `new`, each by its own function.
fn obey(desk: &mut Desk, command: Command) -> Result<Reply, Refused>
    requires { (desk.old.model.ready ≡ true) × (kinds_of desk.old.model ≤ 16) }
    ensures { (line : ℕ) → (desk.new.model, told result line) ≡ obeyed desk.old.model line command }
{
    match command {
        Command::New { w, h, t } => desk.new_window(w, h, t),
        Command::Rule {
            type1,
            type2,
            d,
            allowed,
            corners,
            ce,
            fourway,
            reason,
        } => desk.add_rule(Rule {
            type1,
            type2,
            d,
            allowed,
            corners,
            ce,
            fourway,
            reason,
        }),
        Command::Width { set, d, reason } => desk.add_width(set, d, reason),
        Command::Spacing {
            a,
            b,
            d,
            touch,
            reason,
        } => desk.add_spacing(a, b, d, touch, reason),
        Command::Paint {
            x1,
            y1,
            x2,
            y2,
            kind,
        } => desk.paint(Area { x1, y1, x2, y2 }, kind),
        Command::Check { n } => Ok(check_pieces(desk, n)),
        Command::Report { x1, y1, x2, y2 } => report_area(desk, Area { x1, y1, x2, y2 }),
    }
}

// What a line comes to: before an accepted `new` any line but a `new` is out of turn, and a line that is no command has none.
#[tactic(auto, unfolding(desk::specs::Model::answered))]
fn outcome(desk: &mut Desk, command: Option<Command>) -> Result<Reply, Refused>
    ensures { (line : ℕ) → (desk.new.model, told result line) ≡ answered desk.old.model line command }
{
    match (desk.ready, command) {
        (false, Some(Command::New { w, h, t })) => desk.new_window(w, h, t),
        (false, _) => Err(Refused::OutOfTurn),
        (true, Some(command)) => obey(desk, command),
        (true, None) => Err(Refused::Unknown),
    }
}

// The reply to a line, and the desk afterwards. Not a public call.
pub fn answer(desk: &mut Desk, line: u64, command: Option<Command>) -> Reply
    ensures { (desk.new.model, result) ≡ answered desk.old.model line command }
{
    match outcome(desk, command) {
        Ok(reply) => reply,
        Err(why) => Reply::No {
            number: u8::from(why),
            line,
        },
    }
}
