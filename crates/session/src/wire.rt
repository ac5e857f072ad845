// The two ends of the wire: bytes are heard from a reader and said to a writer, and main takes standard input and standard output for them. No other file reads or writes.
// Carried (specs/Wire) tells which bytes passed over a wire, and outside this file nothing proves it but the contracts of hear and say: a Wire's counts are private.
// What is heard is what the reader loses, and what is said is what the writer gains unless a write fails (`taken`, `put`), of each reader and writer whose bytes a contract knows.
// So of run it is proved that each chunk is read once and, if no write fails, each reply written once. What is left to trust: that standard input and output do what they are
// asked, since no contract of std speaks of their bytes.
ghost use Rattle.std.specs.Prelude.{◌+◌, ◌<◌, ◌^◌, true, [], ◌≡◌, length, take};
ghost use Rattle.std.specs.Io.KnownBytes.{Appends, Consumes};
ghost use Rattle.session.specs.Wire.{Carried, Hears, Says};

use std::io::{Read, Write};

// Whether it is open: the input has not ended, and no write has failed. Whether it is whole: no write has failed. How many bytes were heard and said.
// Two flags, since Conversed speaks of one and ConversedAt of the other.
#[derive(Clone, Copy)]
pub struct Wire {
    open: bool,
    whole: bool,
    heard: u64,
    said: u64,
}

impl Wire {
    // Nothing has passed.
    pub fn unused() -> Wire
        ensures heard { result.heard ≡ 0 }
        ensures said { result.said ≡ 0 }
        ensures is_open { result.open ≡ true }
        ensures carried { Carried result [] }
    {
        Wire {
            open: true,
            whole: true,
            heard: 0,
            said: 0,
        }
    }

    // Has the input not ended, and no write failed?
    pub fn is_open(&self) -> bool
        ensures { result ≡ self.now.open }
    {
        self.open
    }

    // Reads once, to the start of `buf`; how many bytes came. A read that fails is the end of the input.
    pub fn hear<R: Read>(&mut self, reader: &mut R, buf: &mut [u8]) -> usize
        requires room { 0 < length buf.old }
        requires count { self.old.heard + length buf.old < 2 ^ 64 }
        ensures hears { Hears self.old self.new result buf.new }
        ensures taken { Consumes (R.remaining reader.old) (R.remaining reader.new) (take result buf.new) }
        ensures whole { self.new.whole ≡ self.old.whole }
    {
        let k = reader.read(buf).unwrap_or(0);
        self.open &= k != 0;
        self.heard += k as u64;
        k
    }

    // Writes bytes. A write that fails closes the wire.
    pub fn say<W: Write>(&mut self, writer: &mut W, bytes: &[u8])
        requires { self.old.said + length bytes.now < 2 ^ 64 }
        ensures says { Says self.old bytes.now self.new }
        ensures put { self.new.whole ≡ true → (self.old.whole ≡ true) × Appends (W.contents writer.old) (W.contents writer.new) bytes.now }
    {
        let written = writer.write_all(bytes).is_ok();
        self.open &= written;
        self.whole &= written;
        self.said += bytes.len() as u64;
    }
}
