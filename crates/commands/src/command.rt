// From a line's bytes to its command.
ghost use Rattle.std.specs.Prelude.{◌≡◌, eqb, length};
ghost use Rattle.commands.specs.Command.{arity, pick_command, command_with, command_bare, command_from, command_of};
ghost use Rattle.text.specs.Script.{past_blanks};

use crate::keyword::Keyword;
use crate::numbers::Numbers;
use text::part::{part_end, unblanked_length};

// A command with its numbers in the order in which they stand.
#[derive(Clone, Copy)]
pub enum Command {
    New {
        w: u16,
        h: u16,
        t: u16,
    },
    Rule {
        type1: u16,
        type2: u16,
        d: u16,
        allowed: u16,
        corners: u16,
        ce: u16,
        fourway: u16,
        reason: u16,
    },
    Width {
        set: u16,
        d: u16,
        reason: u16,
    },
    Spacing {
        a: u16,
        b: u16,
        d: u16,
        touch: u16,
        reason: u16,
    },
    Paint {
        x1: u16,
        y1: u16,
        x2: u16,
        y2: u16,
        kind: u16,
    },
    Check {
        n: u16,
    },
    Report {
        x1: u16,
        y1: u16,
        x2: u16,
        y2: u16,
    },
}

// The command of a keyword and its numbers; none if it does not take so many.
fn command_with(keyword: Keyword, numbers: &[u16]) -> Option<Command>
    ensures { result ≡ pick_command (eqb (length numbers.now) (arity keyword)) (command_with keyword numbers.now) }
{
    match (keyword, numbers) {
        (Keyword::New, &[w, h, t]) => Some(Command::New { w, h, t }),
        (Keyword::Rule, &[type1, type2, d, allowed, corners, ce, fourway, reason]) => {
            Some(Command::Rule {
                type1,
                type2,
                d,
                allowed,
                corners,
                ce,
                fourway,
                reason,
            })
        }
        (Keyword::Width, &[set, d, reason]) => Some(Command::Width { set, d, reason }),
        (Keyword::Spacing, &[a, b, d, touch, reason]) => Some(Command::Spacing {
            a,
            b,
            d,
            touch,
            reason,
        }),
        (Keyword::Paint, &[x1, y1, x2, y2, kind]) => Some(Command::Paint {
            x1,
            y1,
            x2,
            y2,
            kind,
        }),
        (Keyword::Check, &[n]) => Some(Command::Check { n }),
        (Keyword::Report, &[x1, y1, x2, y2]) => Some(Command::Report { x1, y1, x2, y2 }),
        _ => None,
    }
}

// The command of a line with no blank at its two ends.
fn command_bare(text: &[u8]) -> Option<Command>
    ensures { result ≡ command_bare text.now }
{
    let end = part_end(text, 0);
    let keyword = Keyword::of(&text[..end])?;
    let numbers = Numbers::of(&text[end..])?;
    command_with(keyword, numbers.as_slice())
}

// The command of a line with no blank at its start.
fn command_from(text: &[u8]) -> Option<Command>
    ensures { result ≡ command_from text.now }
{
    command_bare(&text[..unblanked_length(text)])
}

// The command of a line, where the script reader stands at `at`, behind the line's first blanks; none if the line is no command.
pub fn command_of(text: &[u8], at: usize) -> Option<Command>
    requires { at ≡ past_blanks text.now 0 }
    ensures { result ≡ command_of text.now }
{
    command_from(&text[at..])
}
