// What the session knows: the line so far, the desk, and how many lines have ended. A line is read, and answered.
ghost use Rattle.std.specs.Prelude.{List, ◌≡◌, ℕ, ◌+◌, ◌<◌, ◌^◌};
ghost use Rattle.text.specs.Line.{Reads};
ghost use Rattle.lines.specs.Session.{start, command_in};
ghost use Rattle.lines.specs.Held.{Holds, LineEnded};

use answers::answer::answer;
use commands::command::{Command, command_of};
use desk::state::Desk;
use replies::reply::Reply;
use text::line::Line;
use text::script::Script;

// The bytes of the line so far, the desk, and how many lines have ended.
#[derive(Clone, Copy)]
pub struct State {
    pub text: Line,
    pub desk: Desk,
    pub lines: u64,
}

impl State {
    // Nothing has been read.
    pub fn new() -> State
        ensures { (result.lines ≡ 0) × Holds result start }
    {
        State {
            text: Line::fresh(),
            desk: Desk::new(),
            lines: 0,
        }
    }

    // The command in the bytes of the line, by the script reader; none if the line is too long.
    fn command(&self) -> Option<Command>
        requires { self.now.lines + 1 < 2 ^ 64 }
        ensures { (p : List ℕ) → Reads self.now.text p → result ≡ command_in p }
    {
        match self.text.text() {
            Some(text) => command_of(text, Script::opened(self.lines, text).at),
            None => None,
        }
    }

    // A line ends: its answer, and the state for the next one.
    pub fn end_line(&mut self) -> Reply
        requires { self.old.lines + 1 < 2 ^ 64 }
        ensures { LineEnded self.old result self.new }
    {
        let command = self.command();
        self.lines += 1;
        self.text = Line::fresh();
        answer(&mut self.desk, self.lines, command)
    }
}
