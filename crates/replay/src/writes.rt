// The writing of an option, as the crate's was recorded: the input is a code, the number of a kind (16: a table of one route) and the
// content, the answer is all bytes. It is written into the middle of a patterned room, of which nothing else may change. What is refused
// answers None, and so does a record that has a kind without a writer, or too long a list.
use classless::Route;
use kinds::Kind;
use values::answer::Node;

// The kind's number of a table of routes.
const ROUTES: u8 = 16;

// Where in the room is written.
const PLACE: usize = 7;

// Whether a write is as recorded.
pub(crate) fn right(input: &[u8], answer: &[u8]) -> bool {
    if input.len() < 2 {
        return false;
    }
    let mut room = [0u8; 4160];
    for (place, byte) in room.iter_mut().enumerate() {
        *byte = pattern(place);
    }
    match write(&mut room, input[0], input[1], &input[2..]) {
        Some(to) => wrote(&room, to, answer),
        None => false,
    }
}

// The byte of the pattern at a place.
fn pattern(place: usize) -> u8 {
    (place % 251) as u8
}

// Whether exactly these bytes were written, up to a place.
fn wrote(room: &[u8], to: usize, bytes: &[u8]) -> bool {
    PLACE <= to
        && borrowed::part(room, PLACE, to.saturating_sub(PLACE)) == bytes
        && is_drawn(room, 0, PLACE)
        && is_drawn(room, to, room.len())
}

// Whether the room has its pattern from a place to another.
fn is_drawn(room: &[u8], from: usize, to: usize) -> bool {
    (from..to).all(|place| room.get(place).copied() == Some(pattern(place)))
}

fn write(room: &mut [u8], code: u8, sort: u8, content: &[u8]) -> Option<usize> {
    if sort == ROUTES {
        return routes::write_route(room, PLACE, route_in(content)).ok();
    }
    let kind = Kind::try_from(sort).ok()?;
    match kind {
        Kind::Raw => options::write_bytes(room, PLACE, code, content).ok(),
        Kind::Text => typed::write_text(room, PLACE, code, content).ok(),
        Kind::Flag => typed::write_flag(room, PLACE, code).ok(),
        Kind::Addresses | Kind::Pairs | Kind::U16s | Kind::Codes => write_list(
            room, code, kind, content,
        ),
        _ => write_number(room, code, kind, content),
    }
}

// A number of one, two or four bytes, or three bytes.
fn write_number(room: &mut [u8], code: u8, kind: Kind, content: &[u8]) -> Option<usize> {
    let byte = byte_at(content, 0);
    let number = decoder::u32_at(content, 0);
    let written = match kind {
        Kind::Address => typed::write_address(room, PLACE, code, number),
        Kind::Byte => typed::write_byte(room, PLACE, code, byte),
        Kind::YesNo => typed::write_yes_no(room, PLACE, code, byte == 1),
        Kind::U16 => typed::write_u16(room, PLACE, code, decoder::u16_at(content, 0)),
        Kind::U32 => typed::write_u32(room, PLACE, code, number),
        Kind::I32 => typed::write_i32(room, PLACE, code, i32_at(content)),
        Kind::NodeType => typed::write_node_type(room, PLACE, code, Node::Unknown(byte)),
        Kind::MessageType => typed::write_message_type(room, PLACE, code, byte),
        Kind::ThreeBytes => typed::write_three_bytes(
            room,
            PLACE,
            code,
            byte,
            byte_at(content, 1),
            byte_at(content, 2),
        ),
        _ => return None,
    };
    written.ok()
}

// A list: its count in two bytes, then its elements.
fn write_list(room: &mut [u8], code: u8, kind: Kind, content: &[u8]) -> Option<usize> {
    let count = usize::from(decoder::u16_at(content, 0));
    let elements = borrowed::part(content, 2, count.checked_mul(kind.element_size())?);
    let written = match kind {
        Kind::Addresses => lists::write_addresses(
            room,
            PLACE,
            code,
            u32s_of(elements).get(..count)?,
        ),
        Kind::Pairs => lists::write_pairs(room, PLACE, code, u32s_of(elements).get(..2 * count)?),
        Kind::U16s => lists::write_u16s(room, PLACE, code, u16s_of(elements).get(..count)?),
        _ => typed::write_codes(room, PLACE, code, elements),
    };
    written.ok()
}

// As many numbers as a list that is written may have, from the first byte on.
fn u32s_of(bytes: &[u8]) -> [u32; 1024] {
    let mut numbers = [0u32; 1024];
    for (i, number) in numbers.iter_mut().enumerate() {
        *number = decoder::u32_at(bytes, i * 4);
    }
    numbers
}

fn u16s_of(bytes: &[u8]) -> [u16; 2048] {
    let mut numbers = [0u16; 2048];
    for (i, number) in numbers.iter_mut().enumerate() {
        *number = decoder::u16_at(bytes, i * 2);
    }
    numbers
}

// A route: its width, its destination, its gateway.
fn route_in(content: &[u8]) -> Route {
    Route {
        width: byte_at(content, 0),
        destination: decoder::u32_at(content, 1),
        gateway: decoder::u32_at(content, 5),
    }
}

// A byte of the content. One that is missing counts as 0.
fn byte_at(bytes: &[u8], at: usize) -> u8 {
    bytes.get(at).copied().unwrap_or(0)
}

fn i32_at(bytes: &[u8]) -> i32 {
    decoder::be_i32(
        byte_at(bytes, 0),
        byte_at(bytes, 1),
        byte_at(bytes, 2),
        byte_at(bytes, 3),
    )
}
