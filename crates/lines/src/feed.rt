// Bytes are taken one by one, and the replies to the lines that end are put into a lent slice.
ghost use Rattle.std.specs.Prelude.{List, ◌≡◌, ℕ, ◌+◌, ◌*◌, ◌≤◌, ◌<◌, ◌^◌, length, take};
ghost use Rattle.text.specs.Line.{Reads};
ghost use Rattle.text.specs.Put.{Room};
ghost use Rattle.lines.specs.Session.{Model, begun, last_words, closed};
ghost use Rattle.lines.specs.Held.{Holds, Stepped, Took};

use crate::state::State;
use text::writer::Writer;

impl State {
    // Takes a byte. At a line end the reply is put.
    fn step(&mut self, b: u8, out: &mut Writer<'_>)
        requires { (self.old.lines + 1 < 2 ^ 64) × Room out.old 80 }
        ensures { Stepped self.old b out.old self.new out.new }
    {
        if b == b'\n' {
            self.end_line().put(out);
        } else {
            self.text.push(b);
        }
    }

    // Takes a chunk, byte by byte, and puts the replies to the lines that end in it at the start of `out`; how many bytes they are.
    pub fn feed(&mut self, chunk: &[u8], out: &mut [u8]) -> usize
        requires { (self.old.lines + length chunk.now + 1 < 2 ^ 64) × (length chunk.now * 80 ≤ length out.old) }
        ensures { Took self.old chunk.now self.new result out.new }
    {
        let mut out = Writer { out, at: 0 };
        for b in chunk {
            self.step(*b, &mut out);
        }
        out.at
    }

    // Has the line any bytes?
    fn begun(&self) -> bool
        ensures { (p : List ℕ) → Reads self.now.text p → result ≡ begun p }
    {
        match self.text.text() {
            Some(text) => !text.is_empty(),
            None => true,
        }
    }

    // Puts the reply to a last line that lacks its line end, as if it had one, at the start of `out`; how many bytes it is. Then that line has ended.
    pub fn finish(&mut self, out: &mut [u8]) -> usize
        requires { (self.old.lines + 1 < 2 ^ 64) × (80 ≤ length out.old) }
        ensures said { (result ≤ 80) × ((m : Model) → Holds self.old m → take result out.new ≡ last_words m) }
        ensures after { (m : Model) → Holds self.old m → Holds self.new (closed m) }
    {
        if !self.begun() {
            return 0;
        }
        let mut out = Writer { out, at: 0 };
        self.step(b'\n', &mut out);
        out.at
    }
}
