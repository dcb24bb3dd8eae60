// Messages out of a stream over TCP (RFC 6926, section 6.1): in front of each stands its size, two bytes. The stream comes in chunks that are
// cut anywhere; a frame is gathered at the front of a lent buffer, and handed out at its last byte.
#![tactic(auto)]

ghost use Rattle.std.specs.Prelude.{◌≤◌, ◌≡◌, Option};
ghost use Rattle.rfc.specs.Stream as rfc;
ghost use Rattle.stream.specs.Streamed.{stands_at, taken_of, handed_over, Took};
ghost use Rattle.stream.specs.declared.Stream.TheVariants.{Shut};
ghost use Rattle.refusal.specs.declared.Refusal.TheVariants.{SizeAboveBuffer};

use limits::LEAST_MESSAGE;
use refusal::Refusal;

// Where a stream stands between two calls.
#[derive(Clone, Copy, Debug, PartialEq, Eq)]
pub enum Stream {
    // The next byte begins a size: at first, and after a reset.
    Between,
    // The first byte of a size was read.
    Sizing(u8),
    // Of a frame of `size` bytes the first `filled` stand in the buffer.
    Filling { size: u16, filled: u16 },
    // Refused, until reset.
    Shut,
}

// What a call answers.
#[derive(Clone, Copy, Debug, PartialEq, Eq)]
pub struct Taken {
    // A message, by its length: it is the first bytes of the buffer. None where the chunk is used up before one is whole. A frame of
    // fewer than 240 bytes is refused, and a size that is more than the buffer has.
    pub frame: Result<Option<usize>, Refusal>,
    // How many bytes of the chunk were read.
    pub used: usize,
    pub stream: Stream,
}

// Reads the chunk up to the first frame that it completes, or to its end. The next call goes on behind the bytes that were used, with the
// same buffer.
pub fn receive(stream: Stream, buffer: &mut [u8], chunk: &[u8]) -> Taken
    ensures { Took (rfc.receive (stands_at stream) buffer.old chunk.now) buffer.new result }
{
    match stream {
        Stream::Between => start_size(buffer, chunk),
        Stream::Sizing(high) => end_size(high, buffer, chunk, 0),
        Stream::Filling { size, filled } => gather(size, filled, buffer, chunk, 0),
        Stream::Shut => shut(0),
    }
}

// The next byte begins a size.
fn start_size(buffer: &mut [u8], chunk: &[u8]) -> Taken
    ensures { Took (rfc.start_size buffer.old chunk.now) buffer.new result }
{
    match chunk.split_first() {
        Some((high, rest)) => end_size(*high, buffer, rest, 1),
        None => more(0, Stream::Between),
    }
}

// The next byte ends a size, of which the first was read; `used` bytes of the chunk were, and the rest is left.
fn end_size(high: u8, buffer: &mut [u8], rest: &[u8], used: usize) -> Taken
    requires { used ≤ 1 }
    ensures { Took (rfc.end_size used high buffer.old rest.now) buffer.new result }
{
    match rest.split_first() {
        Some((low, rest)) => gather(decoder::be_u16(high, *low), 0, buffer, rest, used + 1),
        None => more(used, Stream::Sizing(high)),
    }
}

// The size is known; `filled` bytes of the frame stand in the buffer.
fn gather(size: u16, filled: u16, buffer: &mut [u8], rest: &[u8], used: usize) -> Taken
    requires { used ≤ 2 }
    ensures { Took (rfc.gather used size filled buffer.old rest.now) buffer.new result }
{
    let all = size as usize;
    let have = filled as usize;
    if all > buffer.len() {
        return shut(used);
    }
    if have >= all {
        return hand_out(all, used);
    }
    let new = parts::next_piece(rest.len(), all - have);
    // They fit, so no refusal is answered.
    let _ = encoder::write_slice(buffer, have, &rest[..new]);
    if have + new == all {
        return hand_out(all, used + new);
    }
    more(
        used + new,
        Stream::Filling {
            size,
            filled: (have + new) as u16,
        },
    )
}

// The chunk is used up.
fn more(used: usize, stream: Stream) -> Taken
    ensures { result ≡ taken_of (Ok None) used stream }
{
    Taken {
        frame: Ok(None),
        used,
        stream,
    }
}

// A size is more than the buffer has, or was: the stream is refused until it is reset.
fn shut(used: usize) -> Taken
    ensures { result ≡ taken_of (Err SizeAboveBuffer) used Shut }
{
    Taken {
        frame: Err(Refusal::SizeAboveBuffer),
        used,
        stream: Stream::Shut,
    }
}

// A whole frame stands in the buffer.
fn hand_out(size: usize, used: usize) -> Taken
    ensures { result ≡ handed_over size used }
{
    Taken {
        frame: if size < LEAST_MESSAGE {
            Err(Refusal::MessageTooShort)
        } else {
            Ok(Some(size))
        },
        used,
        stream: Stream::Between,
    }
}
