// A writer for each kind of value, as the plain arms of the crate's `DhcpOption::encode` have it. Each takes a code of its kind, a
// lent room and a place, each a parameter of its own, as the calls from C lend them. Here are the kinds that hold one thing, and codes of
// options, which are cut as bytes are; the crate `lists` has the other lists.
#![tactic(auto)]

pub mod checks;

ghost use Rattle.std.specs.Prelude.{[], ◌∷◌};
ghost use Rattle.rfc.specs.Values.{raw, natural, integer, truth, numbers, nothing};
ghost use Rattle.values.specs.Reading.{byte_of};
ghost use Rattle.typed.specs.Writes.{Writes};

use kinds::Kind;
use refusal::Refusal;
use values::answer::Node;

// Writes an address.
pub fn write_address(
    room: &mut [u8],
    place: usize,
    code: u8,
    address: u32,
) -> Result<usize, Refusal>
    ensures { Writes 1 (natural address) code room.old room.new place result }
{
    checks::write_as(
        room,
        place,
        code,
        Kind::Address,
        &encoder::u32_bytes(address),
    )
}

// Writes a byte.
pub fn write_byte(room: &mut [u8], place: usize, code: u8, byte: u8) -> Result<usize, Refusal>
    ensures { Writes 4 (natural byte) code room.old room.new place result }
{
    checks::write_as(room, place, code, Kind::Byte, &[byte])
}

// Writes yes as 1 and no as 0.
pub fn write_yes_no(room: &mut [u8], place: usize, code: u8, yes: bool) -> Result<usize, Refusal>
    ensures { Writes 5 (truth yes) code room.old room.new place result }
{
    checks::write_as(room, place, code, Kind::YesNo, &[u8::from(yes)])
}

// Writes a number of two bytes.
pub fn write_u16(room: &mut [u8], place: usize, code: u8, number: u16) -> Result<usize, Refusal>
    ensures { Writes 6 (natural number) code room.old room.new place result }
{
    checks::write_as(room, place, code, Kind::U16, &encoder::u16_bytes(number))
}

// Writes a number of four bytes.
pub fn write_u32(room: &mut [u8], place: usize, code: u8, number: u32) -> Result<usize, Refusal>
    ensures { Writes 8 (natural number) code room.old room.new place result }
{
    checks::write_as(room, place, code, Kind::U32, &encoder::u32_bytes(number))
}

// Writes a number of four bytes in two's complement.
pub fn write_i32(room: &mut [u8], place: usize, code: u8, number: i32) -> Result<usize, Refusal>
    ensures { Writes 9 (integer number) code room.old room.new place result }
{
    checks::write_as(room, place, code, Kind::I32, &encoder::i32_bytes(number))
}

// Writes text, which has to be UTF-8.
pub fn write_text(room: &mut [u8], place: usize, code: u8, text: &[u8]) -> Result<usize, Refusal>
    ensures { Writes 10 (raw text.now) code room.old room.new place result }
{
    checks::writable(room, place, code, Kind::Text)?;
    if !text::is_utf8(text) {
        return Err(Refusal::NotUtf8);
    }
    options::write_bytes(room, place, code, text)
}

// Writes a node type as its byte.
pub fn write_node_type(
    room: &mut [u8],
    place: usize,
    code: u8,
    node: Node,
) -> Result<usize, Refusal>
    ensures { Writes 12 (natural (byte_of node)) code room.old room.new place result }
{
    checks::write_as(room, place, code, Kind::NodeType, &[u8::from(node)])
}

// Writes a message type.
pub fn write_message_type(
    room: &mut [u8],
    place: usize,
    code: u8,
    byte: u8,
) -> Result<usize, Refusal>
    ensures { Writes 13 (natural byte) code room.old room.new place result }
{
    checks::write_as(room, place, code, Kind::MessageType, &[byte])
}

// Writes three bytes.
pub fn write_three_bytes(
    room: &mut [u8],
    place: usize,
    code: u8,
    first: u8,
    second: u8,
    third: u8,
) -> Result<usize, Refusal>
    ensures { Writes 14 (raw (first ∷ second ∷ third ∷ [])) code room.old room.new place result }
{
    checks::write_as(room, place, code, Kind::ThreeBytes, &[first, second, third])
}

// Writes a flag, which has no value: the code and a length of 0.
pub fn write_flag(room: &mut [u8], place: usize, code: u8) -> Result<usize, Refusal>
    ensures { Writes 15 nothing code room.old room.new place result }
{
    checks::writable(room, place, code, Kind::Flag)?;
    encoder::write_slice(room, place, &[code, 0])
}

// Writes codes of options.
pub fn write_codes(room: &mut [u8], place: usize, code: u8, codes: &[u8]) -> Result<usize, Refusal>
    ensures { Writes 11 (numbers codes.now) code room.old room.new place result }
{
    checks::write_as(room, place, code, Kind::Codes, codes)
}
