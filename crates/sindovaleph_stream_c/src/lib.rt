// What programs in Rust and in C call of `sindovaleph_stream`: each function of it, with its clauses, by its name and C's convention.
#![tactic(auto)]

ghost use Rattle.rfc.specs.Stream as rfc;
ghost use Rattle.stream.specs.Streamed.{stands_at};
ghost use Rattle.sindovaleph_stream.specs.Received.{state_of, Receives};

use sindovaleph_stream::{Received, Stream};

// Reads the chunk up to the first frame that it completes, or to its end.
#[unsafe(no_mangle)]
pub extern "C" fn sindovaleph_receive(stream: Stream, buffer: &mut [u8], chunk: &[u8]) -> Received
    ensures { Receives (rfc.receive (stands_at (state_of stream)) buffer.old chunk.now) buffer.new result }
{
    sindovaleph_stream::sindovaleph_receive(stream, buffer, chunk)
}
