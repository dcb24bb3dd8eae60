// What programs in Rust and in C call of `sindovaleph`: each function of it, with its clauses, by its name and C's convention.
#![tactic(auto)]

ghost use Rattle.std.specs.Prelude.{◌≡◌};
ghost use Rattle.rfc.specs.Header as rfc;
ghost use Rattle.rfc.specs.Kinds.{kind_of};
ghost use Rattle.rfc.specs.Text.{utf8};
ghost use Rattle.rfc.specs.Writing.{write_bytes, close};
ghost use Rattle.header.specs.Header.{all_of};
ghost use Rattle.crossing.specs.Carried.{field_of, Stepped, Wrote};
ghost use Rattle.sindovaleph.specs.Boundary.{version};

use crossing::answers::{Field, Step, Written};
use header::Fields;

// The version of the boundary. Its name carries the number, and all who declare the boundary name it: a library of another version does
// not link.
#[unsafe(no_mangle)]
pub extern "C" fn sindovaleph_boundary_5() -> u32
    ensures { result ≡ version }
{
    sindovaleph::sindovaleph_boundary_5()
}

// All fields of the header.
#[unsafe(no_mangle)]
pub extern "C" fn sindovaleph_header(message: &[u8]) -> Fields
    ensures { result ≡ all_of message.now }
{
    sindovaleph::sindovaleph_header(message)
}

// The transaction's number alone, for callers that sort messages before they read them.
#[unsafe(no_mangle)]
pub extern "C" fn sindovaleph_xid(message: &[u8]) -> Field
    ensures { result ≡ field_of (rfc.field rfc.xid message.now) }
{
    sindovaleph::sindovaleph_xid(message)
}

// The kind of a code.
#[unsafe(no_mangle)]
pub extern "C" fn sindovaleph_kind_of(code: u8) -> u8
    ensures { result ≡ kind_of code }
{
    sindovaleph::sindovaleph_kind_of(code)
}

// Whether bytes are UTF-8.
#[unsafe(no_mangle)]
pub extern "C" fn sindovaleph_is_utf8(text: &[u8]) -> bool
    ensures { result ≡ utf8 text.now }
{
    sindovaleph::sindovaleph_is_utf8(text)
}

// One call of the walk at `place`. An option of two parts or more is joined in `join`.
#[unsafe(no_mangle)]
pub extern "C" fn sindovaleph_step(area: &[u8], place: usize, join: &mut [u8]) -> Step
    ensures { Stepped area.now place join.old join.new result }
{
    sindovaleph::sindovaleph_step(area, place, join)
}

// A byte value.
#[unsafe(no_mangle)]
pub extern "C" fn sindovaleph_write_bytes(
    room: &mut [u8],
    place: usize,
    code: u8,
    value: &[u8],
) -> Written
    ensures { Wrote (write_bytes code value.now room.old place)
        room.old room.new place result }
{
    sindovaleph::sindovaleph_write_bytes(room, place, code, value)
}

// End.
#[unsafe(no_mangle)]
pub extern "C" fn sindovaleph_close(room: &mut [u8], place: usize) -> Written
    ensures { Wrote (close room.old place) room.old room.new place result }
{
    sindovaleph::sindovaleph_close(room, place)
}
