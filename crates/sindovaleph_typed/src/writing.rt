// Typed writing, at a place of a lent room: a writer for each kind, and one for classless routes. Room, place and code are parameters of
// each, as C has them.
ghost use Rattle.std.specs.Prelude.{[], ◌∷◌};
ghost use Rattle.rfc.specs.Values.{raw, natural, integer, truth, numbers, nothing};
ghost use Rattle.rfc.specs.Routes.{write_routes};
ghost use Rattle.routes.specs.Rows.{rows_of};
ghost use Rattle.crossing.specs.Carried.{Wrote, WroteValue};

use crossing::answers::Written;
use routes::Route;
use values::answer::Node;

// An address.
pub fn sindovaleph_write_address(room: &mut [u8], place: usize, code: u8, address: u32) -> Written
    ensures { WroteValue 1 (natural address) code room.old room.new place result }
{
    crossing::written_of(typed::write_address(room, place, code, address), place)
}

// A byte.
pub fn sindovaleph_write_byte(room: &mut [u8], place: usize, code: u8, byte: u8) -> Written
    ensures { WroteValue 4 (natural byte) code room.old room.new place result }
{
    crossing::written_of(typed::write_byte(room, place, code, byte), place)
}

// Yes or no.
pub fn sindovaleph_write_yes_no(room: &mut [u8], place: usize, code: u8, yes: bool) -> Written
    ensures { WroteValue 5 (truth yes) code room.old room.new place result }
{
    crossing::written_of(typed::write_yes_no(room, place, code, yes), place)
}

// A number of two bytes.
pub fn sindovaleph_write_u16(room: &mut [u8], place: usize, code: u8, number: u16) -> Written
    ensures { WroteValue 6 (natural number) code room.old room.new place result }
{
    crossing::written_of(typed::write_u16(room, place, code, number), place)
}

// A number of four bytes.
pub fn sindovaleph_write_u32(room: &mut [u8], place: usize, code: u8, number: u32) -> Written
    ensures { WroteValue 8 (natural number) code room.old room.new place result }
{
    crossing::written_of(typed::write_u32(room, place, code, number), place)
}

// A number of four bytes in two's complement.
pub fn sindovaleph_write_i32(room: &mut [u8], place: usize, code: u8, number: i32) -> Written
    ensures { WroteValue 9 (integer number) code room.old room.new place result }
{
    crossing::written_of(typed::write_i32(room, place, code, number), place)
}

// Text, which has to be UTF-8.
pub fn sindovaleph_write_text(room: &mut [u8], place: usize, code: u8, text: &[u8]) -> Written
    ensures { WroteValue 10 (raw text.now) code room.old room.new place result }
{
    crossing::written_of(typed::write_text(room, place, code, text), place)
}

// A node type by its byte, which is written as it stands.
pub fn sindovaleph_write_node_type(room: &mut [u8], place: usize, code: u8, byte: u8) -> Written
    ensures { WroteValue 12 (natural byte) code room.old room.new place result }
{
    crossing::written_of(
        typed::write_node_type(room, place, code, Node::Unknown(byte)),
        place,
    )
}

// A message type.
pub fn sindovaleph_write_message_type(room: &mut [u8], place: usize, code: u8, byte: u8) -> Written
    ensures { WroteValue 13 (natural byte) code room.old room.new place result }
{
    crossing::written_of(typed::write_message_type(room, place, code, byte), place)
}

// Three bytes.
pub fn sindovaleph_write_three_bytes(
    room: &mut [u8],
    place: usize,
    code: u8,
    first: u8,
    second: u8,
    third: u8,
) -> Written
    ensures { WroteValue 14 (raw (first ∷ second ∷ third ∷ [])) code room.old room.new place result }
{
    crossing::written_of(
        typed::write_three_bytes(room, place, code, first, second, third),
        place,
    )
}

// A flag, which has no value.
pub fn sindovaleph_write_flag(room: &mut [u8], place: usize, code: u8) -> Written
    ensures { WroteValue 15 nothing code room.old room.new place result }
{
    crossing::written_of(typed::write_flag(room, place, code), place)
}

// Addresses.
pub fn sindovaleph_write_addresses(
    room: &mut [u8],
    place: usize,
    code: u8,
    addresses: &[u32],
) -> Written
    ensures { WroteValue 2 (numbers addresses.now) code room.old room.new place result }
{
    crossing::written_of(lists::write_addresses(room, place, code, addresses), place)
}

// Pairs of addresses, one address behind the other.
pub fn sindovaleph_write_pairs(
    room: &mut [u8],
    place: usize,
    code: u8,
    addresses: &[u32],
) -> Written
    ensures { WroteValue 3 (numbers addresses.now) code room.old room.new place result }
{
    crossing::written_of(lists::write_pairs(room, place, code, addresses), place)
}

// Numbers of two bytes.
pub fn sindovaleph_write_u16s(room: &mut [u8], place: usize, code: u8, u16s: &[u16]) -> Written
    ensures { WroteValue 7 (numbers u16s.now) code room.old room.new place result }
{
    crossing::written_of(lists::write_u16s(room, place, code, u16s), place)
}

// Codes of options.
pub fn sindovaleph_write_codes(room: &mut [u8], place: usize, code: u8, codes: &[u8]) -> Written
    ensures { WroteValue 11 (numbers codes.now) code room.old room.new place result }
{
    crossing::written_of(typed::write_codes(room, place, code, codes), place)
}

// The lent table of classless routes.
pub fn sindovaleph_write_routes(room: &mut [u8], place: usize, routes: &[Route]) -> Written
    ensures { Wrote (write_routes (rows_of routes.now) room.old place)
        room.old room.new place result }
{
    crossing::written_of(routes::write_routes(room, place, routes), place)
}
