// The session: lines from standard input, and a reply to each on standard output, as soon as its line has come.
// What is proved: what is said over the wire is what `written` (lines/specs/Session) says of what is heard, byte for byte and however the reads cut it, and the replies to the
// lines that end in a read are said before the next (Conversed, specs/Conversed). wire.rt has the two ends of the wire, and says what is left to trust.
// A write that fails ends the reading. A write to a pipe without a reader fails too: before main the program's start has the system's signal for it (SIGPIPE) ignored.
#![tactic(auto)]

mod turn;
mod wire;

use crate::turn::run;

fn main(rt: HostRuntime) {
    run(&mut rt.stdin(), &mut rt.stdout());
}
