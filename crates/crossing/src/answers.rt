// How answers cross the boundary. `refused` is the number of a refusal, 0 for none; where one is given, every other number is 0, unless
// something else is said. C has neither an option nor an answer that may be refused: so these are numbers, as are a stop and a kind.

// One field of the header.
#[repr(C)]
#[derive(Drop)]
pub struct Field {
    pub refused: usize,
    pub number: usize,
}

// One call of the walk. `stop` is 0 for an option, 1 for out, 2 for End, 3 for a cut length, 4 for a cut value, 5 for a cut continuation.
// An option has its code, its parts and the length of its value: with one part the value is the `len` bytes of the area before `place`,
// with more the first `len` bytes of the join buffer. `place` is where the walk goes on; a refusal leaves it, and refusal 5 says in `len`
// how much is needed. Of these numbers those of an option make a row of a listing, which joins nothing: there a value of more parts
// stands in the area alone, part by part.
#[repr(C)]
#[derive(Drop)]
pub struct Step {
    pub refused: u8,
    pub stop: u8,
    pub code: u8,
    pub parts: usize,
    pub len: usize,
    pub place: usize,
}

// What a value reads as: its kind, and by its kind a number (yes is 1; a number of seconds as 32 bits in two's complement; three bytes as
// one number, the first the highest) or how many elements it has.
#[repr(C)]
#[derive(Drop)]
pub struct Value {
    pub refused: u8,
    pub kind: u8,
    pub number: u32,
    pub count: usize,
}

// An element of a list; only a pair has a second number.
#[repr(C)]
#[derive(Drop)]
pub struct Element {
    pub refused: u8,
    pub first: u32,
    pub second: u32,
}

// What a write answers: the place behind what was written. A refusal leaves the place as it was.
#[repr(C)]
#[derive(Drop)]
pub struct Written {
    pub refused: u8,
    pub place: usize,
}
