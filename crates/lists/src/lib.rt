// The writers of lists whose elements have two bytes or more, as the crate's `encode_long_opt_chunks` has them: a list is cut at whole
// elements, and an empty one writes nothing. The room, the place and the code are parameters of each, as the calls from C have them.
#![tactic(auto)]

ghost use Rattle.std.specs.Prelude.{◌+◌, ◌*◌, ◌%◌, ◌≤◌, ◌≡◌, ◌&&◌, not, ◌∷◌, eqb, length};
ghost use Rattle.facts.specs.Over.{over};
ghost use Rattle.rfc.specs.Numbers.{most_part};
ghost use Rattle.rfc.specs.Values.{numbers};
ghost use Rattle.rfc.specs.Writing.{encode};
ghost use Rattle.rfc.specs.Typed.{write_kind};
ghost use Rattle.kinds.specs.Kind.{number_of};
ghost use Rattle.encoder.specs.Written.{Wrote};
ghost use Rattle.typed.specs.Writes.{Writes};
ghost use Rattle.lists.specs.Cuts.{CutAt, Ready};

use encoder::Number;
use kinds::Kind;
use limits::MOST_VALUE;
use refusal::Refusal;
use typed::checks;

// The most elements of a part.
const ADDRESSES_A_PART: usize = 63;

const PAIRS_A_PART: usize = 31;

const U16S_A_PART: usize = 127;

// Writes addresses.
pub fn write_addresses(
    room: &mut [u8],
    place: usize,
    code: u8,
    addresses: &[u32],
) -> Result<usize, Refusal>
    ensures { Writes 2 (numbers addresses.now) code room.old room.new place result }
{
    write_list(
        room,
        place,
        code,
        Kind::Addresses,
        addresses,
        ADDRESSES_A_PART,
    )
}

// Writes pairs of addresses, one address behind the other.
pub fn write_pairs(
    room: &mut [u8],
    place: usize,
    code: u8,
    addresses: &[u32],
) -> Result<usize, Refusal>
    ensures { Writes 3 (numbers addresses.now) code room.old room.new place result }
{
    write_list(room, place, code, Kind::Pairs, addresses, 2 * PAIRS_A_PART)
}

// Writes numbers of two bytes.
pub fn write_u16s(room: &mut [u8], place: usize, code: u8, u16s: &[u16]) -> Result<usize, Refusal>
    ensures { Writes 7 (numbers u16s.now) code room.old room.new place result }
{
    write_list(room, place, code, Kind::U16s, u16s, U16S_A_PART)
}

// Writes numbers as a list of a kind, in parts of `most` numbers.
fn write_list<N: Number>(
    room: &mut [u8],
    place: usize,
    code: u8,
    kind: Kind,
    numbers: &[N],
    most: usize,
) -> Result<usize, Refusal>
    requires { CutAt (number_of kind) N.WIDTH most }
    ensures { Wrote (write_kind (number_of kind) code (N.bytes numbers.now) room.old place)
        room.old room.new place result }
{
    let width = N::WIDTH;
    checks::writable(room, place, code, kind)?;
    if odd_pairs(kind, numbers.len()) {
        return Err(Refusal::OddPairs);
    }
    if numbers.len() > MOST_VALUE / width {
        return Err(Refusal::ValueTooLong);
    }
    let size = parts::size_in_parts((width * numbers.len()) as u16, (width * most) as u16);
    if size > room.len() - place {
        return Err(Refusal::NoRoom);
    }
    put_parts(room, place, code, numbers, most);
    Ok(place + size)
}

// Whether a list of pairs has an odd number of addresses.
#[tactic(auto, using(kinds::proofs::Numbers::same_kind))]
fn odd_pairs(kind: Kind, count: usize) -> bool
    ensures { result ≡ (eqb (number_of kind) 3 && not (eqb (count % 2) 0)) }
{
    kind == Kind::Pairs && count % 2 != 0
}

// Writes all parts of a list, `most` numbers a part.
fn put_parts<N: Number>(room: &mut [u8], place: usize, code: u8, numbers: &[N], most: usize)
    requires { Ready N.WIDTH most code place (N.bytes numbers.now) room.old }
    ensures { room.new ≡ over room.old place (encode (N.WIDTH * most) code (N.bytes numbers.now)) }
{
    let mut at = place;
    for part in numbers.chunks(most) {
        put_part(room, at, code, part);
        at += 2 + N::WIDTH * part.len();
    }
}

// Writes one part: the code, the length and the numbers.
fn put_part<N: Number>(room: &mut [u8], at: usize, code: u8, numbers: &[N])
    requires { (at + (2 + N.WIDTH * length numbers.now) ≤ length room.old) × (N.WIDTH * length numbers.now ≤ most_part) }
    ensures { room.new
        ≡ over room.old at (code ∷ N.WIDTH * length numbers.now ∷ N.bytes numbers.now) }
{
    let size = N::WIDTH * numbers.len();
    room[at] = code;
    room[at + 1] = size as u8;
    let _ = encoder::write_numbers(&mut room[at + 2..at + 2 + size], 0, numbers);
}
