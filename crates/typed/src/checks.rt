// What is alike in every typed write: the checks of the room, the place and the code, and bytes that are cut as a byte value is.
ghost use Rattle.std.specs.Prelude.{◌≡◌};
ghost use Rattle.rfc.specs.Numbers.{given, checked, first_refusal};
ghost use Rattle.rfc.specs.Typed.{code_checks, write_kind};
ghost use Rattle.refusal.specs.Told.{told};
ghost use Rattle.kinds.specs.Kind.{number_of};
ghost use Rattle.encoder.specs.Written.{Wrote};
ghost use Rattle.typed.specs.Writes.{kind_to_write, kind_told, AsBytes};

use kinds::Kind;
use limits::MOST_BYTES;
use refusal::Refusal;

// The kind of the code, unless the room, the place or the code is refused.
#[tactic(auto, unfolding(crate::specs::Writes::kind_to_write, rfc::specs::Numbers::checked, rfc::specs::Numbers::too_long, rfc::specs::Numbers::past_end, rfc::specs::Numbers::no_code))]
pub fn kind_to_write(room: &[u8], place: usize, code: u8) -> Result<Kind, Refusal>
    ensures { kind_told result ≡ kind_to_write code room.now place }
{
    if room.len() > MOST_BYTES {
        return Err(Refusal::TooLong);
    }
    if place > room.len() {
        return Err(Refusal::PastEnd);
    }
    if code == 0 || code == 255 {
        return Err(Refusal::NoSuchCode);
    }
    Ok(kinds::kind_of(code))
}

// Nothing, unless the room, the place or the code is refused, or the code is of another kind.
#[tactic(auto, using(kinds::proofs::Numbers::same_kind), unfolding(crate::specs::Writes::kind_to_write, rfc::specs::Typed::code_checks, rfc::specs::Typed::other_kind, rfc::specs::Numbers::checked))]
pub fn writable(room: &[u8], place: usize, code: u8, kind: Kind) -> Result<(), Refusal>
    ensures { told result ≡ checked (code_checks (number_of kind) code room.now place) (given tt) }
{
    if kind_to_write(room, place, code)? != kind {
        return Err(Refusal::OtherKind);
    }
    Ok(())
}

// The same for who has the kind by a number, which may be that of no kind: the number of the first refusal, 0 for none.
#[tactic(auto, unfolding(crate::specs::Writes::kind_to_write, rfc::specs::Typed::code_checks, rfc::specs::Typed::other_kind, rfc::specs::Numbers::checked, rfc::specs::Numbers::first_refusal))]
pub fn refusal(room: &[u8], place: usize, code: u8, kind: u8) -> u8
    ensures { result ≡ first_refusal (code_checks kind code room.now place) }
{
    match kind_to_write(room, place, code) {
        Ok(found) if found.number() == kind => 0,
        Ok(_) => Refusal::OtherKind.number(),
        Err(refusal) => refusal.number(),
    }
}

// Writes the bytes of a value of a kind, where its parts are those of a byte value.
pub(crate) fn write_as(
    room: &mut [u8],
    place: usize,
    code: u8,
    kind: Kind,
    bytes: &[u8],
) -> Result<usize, Refusal>
    requires { AsBytes (number_of kind) code bytes.now }
    ensures { Wrote (write_kind (number_of kind) code bytes.now room.old place)
        room.old room.new place result }
{
    writable(room, place, code, kind)?;
    options::write_bytes(room, place, code, bytes)
}
