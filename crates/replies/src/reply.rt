// The session's replies, as bytes put into a lent slice: 80 at most for one.
ghost use Rattle.std.specs.Prelude.{◌++◌, ◌+◌, ◌≤◌, length};
ghost use Rattle.replies.specs.Reply.{ended, reply_bytes};
ghost use Rattle.text.specs.Put.{Puts, Room};

use text::writer::Writer;

// What a line is answered with. Numbers, as they are said: the worked replies (specs/Worked) speak of them.
#[derive(Clone, Copy)]
pub enum Reply {
    Ok,
    No {
        number: u8,
        line: u64,
    },
    Check {
        answer: u8,
        done: u64,
        left: u64,
    },
    Report {
        settled: u64,
        squares: u64,
        tiles: u64,
    },
}

impl Reply {
    // Puts the reply's line.
    pub fn put(self, out: &mut Writer<'_>)
        requires { Room out.old 80 }
        ensures { (Puts out.old out.new (reply_bytes self)) × (out.new.at ≤ out.old.at + 80) }
    {
        match self {
            Reply::Ok => put_line(out, b"ok", &[]),
            Reply::No { number, line } => put_line(out, b"no", &[u64::from(number), line]),
            Reply::Check { answer, done, left } => {
                put_line(out, b"check", &[u64::from(answer), done, left])
            }
            Reply::Report {
                settled,
                squares,
                tiles,
            } => put_line(out, b"report", &[settled, squares, tiles]),
        }
    }
}

// Puts a line: a word, and numbers, each behind a blank. Not by `write!`, whose contract does not say when a write succeeds: where there is room, a reply is put for sure.
fn put_line(out: &mut Writer<'_>, word: &[u8], numbers: &[u64])
    requires { (length word.now ≤ 8) × (length numbers.now ≤ 3) × Room out.old 80 }
    ensures { (Puts out.old out.new (word.now ++ ended numbers.now)) × (out.new.at ≤ out.old.at + 80) }
{
    out.put_word(word);
    for n in numbers {
        out.put_byte(b' ');
        out.put_decimal(*n);
    }
    out.put_byte(b'\n');
}
