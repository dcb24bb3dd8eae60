// The boundary to programs in Rust and in C, for the header, the walk and options as bytes: each function stands for one of the library,
// takes numbers and slices, and answers a plain struct by value. The boundary is several crates, an archive each: here nothing but
// `sindovaleph_step` reaches the walk, and nothing but `sindovaleph_write_bytes` the writing of a value, so the compiler makes one piece of
// each.
#![tactic(auto)]

ghost use Rattle.std.specs.Prelude.{◌≡◌};
ghost use Rattle.rfc.specs.Header as rfc;
ghost use Rattle.rfc.specs.Kinds.{kind_of};
ghost use Rattle.rfc.specs.Text.{utf8};
ghost use Rattle.rfc.specs.Writing.{write_bytes, close};
ghost use Rattle.header.specs.Header.{all_of};
ghost use Rattle.crossing.specs.Carried.{field_of, Stepped, Wrote};
ghost use Rattle.sindovaleph.specs.Boundary.{version};

use borrowed::answer::{First, Stop};
use crossing::answers::{Field, Step, Written};
use header::{Fields, Header};

// The version of the boundary. Its name carries the number, and all who declare the boundary name it: a library of another version does
// not link.
pub fn sindovaleph_boundary_5() -> u32
    ensures { result ≡ version }
{
    5
}

// All fields of the header.
pub fn sindovaleph_header(message: &[u8]) -> Fields
    ensures { result ≡ all_of message.now }
{
    Header::all(message)
}

// The transaction's number alone, for callers that sort messages before they read them.
pub fn sindovaleph_xid(message: &[u8]) -> Field
    ensures { result ≡ field_of (rfc.field rfc.xid message.now) }
{
    Field::from(Header::xid(message))
}

// The kind of a code.
pub fn sindovaleph_kind_of(code: u8) -> u8
    ensures { result ≡ kind_of code }
{
    kinds::kind_of(code).number()
}

// Whether bytes are UTF-8.
pub fn sindovaleph_is_utf8(text: &[u8]) -> bool
    ensures { result ≡ utf8 text.now }
{
    text::is_utf8(text)
}

// One call of the walk at `place`. An option of two parts or more is joined in `join`. What a first look tells is answered at once. The
// rest stands in two arms that could be one: a function with two callers is kept apart by the compiler, and then the short way needs none
// of its registers. The area is lent as a new slice, and the answer built anew, so that the short way needs no memory for them either.
pub fn sindovaleph_step(area: &[u8], place: usize, join: &mut [u8]) -> Step
    ensures { Stepped area.now place join.old join.new result }
{
    match borrowed::first(area, place) {
        First::Alone(found) => Step::from(found),
        First::Ends(to) => Step {
            refused: 0,
            stop: crossing::stop_number(Stop::End),
            code: 0,
            parts: 0,
            len: 0,
            place: to,
        },
        First::Several => Step {
            ..long_way(&area[0..area.len()], place, join)
        },
        First::Other => Step {
            ..long_way(&area[0..area.len()], place, join)
        },
    }
}

// The long way of a step: any place of any area.
#[tactic(auto, using(crossing::proofs::Carries::step_crosses))]
fn long_way(area: &[u8], place: usize, join: &mut [u8]) -> Step
    ensures { Stepped area.now place join.old join.new result }
{
    crossing::step_of(borrowed::step(area, place, join), place)
}

// A byte value.
pub fn sindovaleph_write_bytes(room: &mut [u8], place: usize, code: u8, value: &[u8]) -> Written
    ensures { Wrote (write_bytes code value.now room.old place)
        room.old room.new place result }
{
    crossing::written_of(options::write_bytes(room, place, code, value), place)
}

// End.
pub fn sindovaleph_close(room: &mut [u8], place: usize) -> Written
    ensures { Wrote (close room.old place) room.old room.new place result }
{
    crossing::written_of(options::close(room, place), place)
}
