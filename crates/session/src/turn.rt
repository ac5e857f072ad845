// Turns: hear, take what came, say the replies; until the wire is closed.
ghost use Rattle.std.specs.Prelude.{◌+◌, ◌<◌, ◌^◌};
ghost use Rattle.session.specs.Conversed.{TurnedAt, ConversedAt};

use crate::wire::Wire;
use lines::state::State;
use std::io::{Read, Write};

// The state, the wire, and the room for the replies of a turn.
#[derive(Drop)]
pub struct Session {
    pub state: State,
    pub wire: Wire,
    pub out: [u8; 40960],
}

impl Session {
    // Reads once, takes what came, and writes the replies. At the end of the input it takes and writes nothing.
    fn turn<R: Read, W: Write>(&mut self, reader: &mut R, writer: &mut W)
        requires lines { self.old.state.lines + 513 < 2 ^ 64 }
        requires ins { self.old.wire.heard + 512 < 2 ^ 64 }
        requires outs { self.old.wire.said + 40960 < 2 ^ 64 }
        ensures { TurnedAt self.old self.new (R.remaining reader.old) (R.remaining reader.new) (W.contents writer.old) (W.contents writer.new) }
    {
        let mut buf = [0u8; 512];
        let k = self.wire.hear(reader, &mut buf);
        let n = self.state.feed(&buf[..k], &mut self.out);
        self.wire.say(writer, &self.out[..n]);
    }
}

// Reads until the wire is closed. A proved loop has to end: it takes 2^48 turns at most, which no run uses up.
pub fn run<R: Read, W: Write>(reader: &mut R, writer: &mut W) -> Wire
    ensures { ConversedAt result (R.remaining reader.old) (R.remaining reader.new) (W.contents writer.old) (W.contents writer.new) }
{
    let mut session = Session {
        state: State::new(),
        wire: Wire::unused(),
        out: [0u8; 40960],
    };
    for _turn in 0..1u64 << 48 {
        if !session.wire.is_open() {
            break;
        }
        session.turn(reader, writer);
    }
    let n = session.state.finish(&mut session.out);
    session.wire.say(writer, &session.out[..n]);
    session.wire
}
