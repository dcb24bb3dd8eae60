// The listing of a message in RFC 3396's reading as text, written into a lent room: a line for the fields that hold options, one for each
// code, and how many there are.
#![tactic(auto)]

ghost use Rattle.std.specs.Prelude.{◌≡◌, length};
ghost use Rattle.rfc.specs.Header as rfc;
ghost use Rattle.rfc.specs.Writing.{into_room};
ghost use Rattle.rfc.specs.Aggregate.{overload_of};
ghost use Rattle.encoder.specs.Written.{Wrote};
ghost use Rattle.pen.specs.Added.{Added};
ghost use Rattle.joined_lines.specs.Joined.{fields_line, codes_line, entries_in, fields_lines, joined_lines, joined_listing};

use borrowed::answer::Step;
use header::Header;
use lines::MOST_LISTED;
use pen::{Pen, Show};
use refusal::Refusal;

// A message that is listed in this reading.
#[derive(Drop)]
struct Joined<'a> {
    message: &'a [u8],
}

impl<'a> Show for Joined<'a> {
    ghost text = { λ it. joined_listing it.message.now };

    #[tactic(auto, using(crate::proofs::Telling::joined_long, crate::proofs::Telling::joined_whole))]
    fn show(&self, pen: &mut Pen) {
        if self.message.len() > MOST_LISTED {
            pen.word(b"too long\n");
            return;
        }
        put_lines(pen, self.message);
    }
}

// Writes the listing of `message` at `place`.
pub fn write_joined(room: &mut [u8], place: usize, message: &[u8]) -> Result<usize, Refusal>
    ensures { Wrote (into_room (joined_listing message.now) room.old place)
        room.old room.new place result }
{
    pen::write(room, place, &Joined { message })
}

// Adds the lines of a message, or the one that stands in their place.
#[tactic(auto, using(crate::proofs::Telling::lines_refused), unfolding(crate::specs::Joined::joined_lines))]
fn put_lines(pen: &mut Pen, message: &[u8])
    ensures { Added pen.old pen.new (joined_lines message.now (rfc.area message.now)) }
{
    match Header::area(message) {
        Ok(Some(_)) => put_fields(pen, message),
        Ok(None) => pen.word(b"magic wrong\n"),
        Err(refusal) => lines::put_refused(pen, refusal.number()),
    }
}

// Adds the lines of the fields that option 52 names.
#[tactic(auto, using(crate::proofs::Telling::fields_refused), unfolding(crate::specs::Joined::fields_lines))]
fn put_fields(pen: &mut Pen, message: &[u8])
    ensures { Added pen.old pen.new (fields_lines message.now (overload_of message.now)) }
{
    match aggregate::fields::overload(message) {
        Ok(named) => {
            let mut join = [0u8; MOST_LISTED];
            pen.word(fields_line(named));
            put_entries(pen, message, &mut join);
        }
        Err(refusal) => lines::put_refused(pen, refusal.number()),
    }
}

// The line of the fields that option 52 names.
#[tactic(auto, unfolding(crate::specs::Joined::fields_line, rfc::specs::Aggregate::names_file, rfc::specs::Aggregate::names_sname))]
fn fields_line(named: usize) -> &'static [u8]
    ensures { result.now ≡ fields_line named }
{
    match named {
        1 => b"fields options file\n",
        2 => b"fields options sname\n",
        3 => b"fields options file sname\n",
        _ => b"fields options\n",
    }
}

// Adds a line for each code, and how many there are, in no more calls than the message has bytes.
#[tactic(auto, using(lines::proofs::Resting::begins))]
fn put_entries(pen: &mut Pen, message: &[u8], join: &mut [u8])
    ensures { Added pen.old pen.new (entries_in (length message.now) (length join.old) message.now 0) }
{
    for index in 0..message.len() {
        match aggregate::entry(message, index, join) {
            Ok(Step::Found(found)) => {
                lines::put_option(pen, found.code, found.parts, found.value(message, join));
            }
            Ok(Step::Stopped(_, _)) => return put_codes(pen, index),
            Err(refusal) => return lines::put_refused(pen, refusal.number()),
        }
    }
}

// Adds the line of how many codes there are.
fn put_codes(pen: &mut Pen, count: usize)
    ensures { Added pen.old pen.new (codes_line count) }
{
    pen.named(b"codes ", count);
    pen.word(b"\n");
}
