// Options written into a lent room at a place, as the crate's `encode_long_opt_bytes` writes them: parts of 255 bytes, each with its
// code and its length before it. `rows` writes many in one call. The room and the place are parameters of each, as the calls from C have them.
#![tactic(auto)]

pub mod rows;

ghost use Rattle.std.specs.Prelude.{◌≡◌, ◌∷◌, ◌+◌, ◌≤◌, length};
ghost use Rattle.facts.specs.Over.{over};
ghost use Rattle.rfc.specs.Numbers.{most_value, most_part};
ghost use Rattle.rfc.specs.Writing.{encode, write_slice, write_bytes, close};
ghost use Rattle.encoder.specs.Written.{Wrote};

use limits::{MOST_BYTES, MOST_PART, MOST_VALUE};
use refusal::Refusal;

// Writes `value` to `code` at `place` as a byte value.
pub fn write_bytes(room: &mut [u8], place: usize, code: u8, value: &[u8]) -> Result<usize, Refusal>
    ensures { Wrote (write_bytes code value.now room.old place)
        room.old room.new place result }
{
    if room.len() > MOST_BYTES {
        return Err(Refusal::TooLong);
    }
    if place > room.len() {
        return Err(Refusal::PastEnd);
    }
    if code == 0 || code == 255 {
        return Err(Refusal::NoSuchCode);
    }
    if value.len() > MOST_VALUE {
        return Err(Refusal::ValueTooLong);
    }
    if value.len() > MOST_PART {
        return write_parts(room, place, code, value);
    }
    write_part(room, place, code, value)
}

// Writes End at `place`.
pub fn close(room: &mut [u8], place: usize) -> Result<usize, Refusal>
    ensures { Wrote (close room.old place) room.old room.new place result }
{
    if room.len() > MOST_BYTES {
        return Err(Refusal::TooLong);
    }
    if place > room.len() {
        return Err(Refusal::PastEnd);
    }
    if place == room.len() {
        return Err(Refusal::NoRoom);
    }
    room[place] = 255;
    Ok(place + 1)
}

// Writes a value in its parts, if they fit.
fn write_parts(room: &mut [u8], place: usize, code: u8, value: &[u8]) -> Result<usize, Refusal>
    requires { (place ≤ length room.old) × (length value.now ≤ most_value) }
    ensures { Wrote (write_slice (encode most_part code value.now) room.old place)
        room.old room.new place result }
{
    let size = parts::size_in_parts(value.len() as u16, MOST_PART as u16);
    if size > room.len() - place {
        return Err(Refusal::NoRoom);
    }
    put_parts(room, place, code, value);
    Ok(place + size)
}

// Writes a value of at most one part, if it fits: an empty one is no part.
fn write_part(room: &mut [u8], place: usize, code: u8, value: &[u8]) -> Result<usize, Refusal>
    requires { (place ≤ length room.old) × (length value.now ≤ most_part) }
    ensures { Wrote (write_slice (encode most_part code value.now) room.old place)
        room.old room.new place result }
{
    if value.is_empty() {
        return Ok(place);
    }
    if value.len() + 2 > room.len() - place {
        return Err(Refusal::NoRoom);
    }
    put_part(room, place, code, value);
    Ok(place + value.len() + 2)
}

// Writes all parts of `value`.
pub(crate) fn put_parts(room: &mut [u8], place: usize, code: u8, value: &[u8])
    requires { place + length (encode most_part code value.now) ≤ length room.old }
    ensures { room.new ≡ over room.old place (encode most_part code value.now) }
{
    let mut at = place;
    for part in value.chunks(MOST_PART) {
        put_part(room, at, code, part);
        at += 2 + part.len();
    }
}

// Writes one part: the code, the length and the bytes, into just their part of the room, so that nothing is left to be tested.
pub(crate) fn put_part(room: &mut [u8], at: usize, code: u8, bytes: &[u8])
    requires { (at + (2 + length bytes.now) ≤ length room.old) × (length bytes.now ≤ most_part) }
    ensures { room.new ≡ over room.old at (code ∷ length bytes.now ∷ bytes.now) }
{
    room[at] = code;
    room[at + 1] = bytes.len() as u8;
    let _ = encoder::write_slice(&mut room[at + 2..at + 2 + bytes.len()], 0, bytes);
}
