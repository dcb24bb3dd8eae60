// The boundary to programs in Rust and in C, for messages out of a stream over TCP, cut anywhere. Where the stream stands goes in and comes
// out by value, as plain numbers; the caller keeps it between two calls.
#![tactic(auto)]

ghost use Rattle.std.specs.Prelude.{◌≡◌};
ghost use Rattle.rfc.specs.Stream as rfc;
ghost use Rattle.stream.specs.Streamed.{stands_at};
ghost use Rattle.sindovaleph_stream.specs.Received.{state_of, plain_of, received_here, Receives};

use stream::{Stream as State, Taken};

// Where a stream stands. `state` is 0 between two frames; 1 where the first byte of a size was read, which is `high`; 2 where of a frame of
// `size` bytes the first `filled` stand in the buffer; any other number is a refused stream, answered as 3. Numbers that a state does not
// name are not looked at, and answered as 0. A fresh stream is all 0, and so is a reset.
#[repr(C)]
#[derive(Drop)]
pub struct Stream {
    pub state: u8,
    pub high: u8,
    pub size: u16,
    pub filled: u16,
}

// What a call answers, as C needs it. `refused` is the number of a refusal, 0 for none. `len` is 0, or a message is handed out: the first `len`
// bytes of the buffer. `used` is how many bytes of the chunk were read, and `stream` goes into the next call: these two are answered with a
// refusal too.
#[repr(C)]
#[derive(Drop)]
pub struct Received {
    pub refused: u8,
    pub len: usize,
    pub used: usize,
    pub stream: Stream,
}

// Reads the chunk up to the first frame that it completes, or to its end.
pub fn sindovaleph_receive(stream: Stream, buffer: &mut [u8], chunk: &[u8]) -> Received
    ensures { Receives (rfc.receive (stands_at (state_of stream)) buffer.old chunk.now) buffer.new result }
{
    Received::from(stream::receive(State::from(stream), buffer, chunk))
}

// The stream that plain numbers stand for.
impl From<Stream> for State {
    ghost from_gives = { λ plain state. state ≡ state_of plain };

    fn from(plain: Stream) -> State {
        match plain.state {
            0 => State::Between,
            1 => State::Sizing(plain.high),
            2 => State::Filling {
                size: plain.size,
                filled: plain.filled,
            },
            _ => State::Shut,
        }
    }
}

// The plain numbers that stand for a stream.
impl From<State> for Stream {
    ghost from_gives = { λ state plain. plain ≡ plain_of state };

    fn from(state: State) -> Stream {
        match state {
            State::Between => plain(0, 0, 0, 0),
            State::Sizing(high) => plain(1, high, 0, 0),
            State::Filling { size, filled } => plain(2, 0, size, filled),
            State::Shut => plain(3, 0, 0, 0),
        }
    }
}

fn plain(state: u8, high: u8, size: u16, filled: u16) -> Stream
    ensures { result ≡ record { state = state; high = high; size = size; filled = filled } }
{
    Stream {
        state,
        high,
        size,
        filled,
    }
}

// An answer as plain numbers.
impl From<Taken> for Received {
    ghost from_gives = { λ taken received. received ≡ received_here taken };

    fn from(taken: Taken) -> Received {
        let (refused, len) = match taken.frame {
            Ok(message) => (0, message.unwrap_or(0)),
            Err(refusal) => (refusal.number(), 0),
        };
        Received {
            refused,
            len,
            used: taken.used,
            stream: Stream::from(taken.stream),
        }
    }
}
