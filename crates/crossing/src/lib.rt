// How each answer of the library becomes a struct of plain numbers, which crosses the boundary to programs in Rust and in C: `answers` has
// the structs, and here is how each is made.
#![tactic(auto)]

pub mod answers;

ghost use Rattle.std.specs.Prelude.{◌≡◌};
ghost use Rattle.refusal.specs.Told.{told};
ghost use Rattle.kinds.specs.Kind.{number_of};
ghost use Rattle.borrowed.specs.Walked.{stop_of};
ghost use Rattle.values.specs.Reading.{element_says};
ghost use Rattle.crossing.specs.Carried.{field_of, stop_number, element_of, written_of, option_here, step_here, reading_here, held_here};

use answers::{Element, Field, Step, Value, Written};
use borrowed::answer::{Found, Step as Call, Stop};
use kinds::Kind;
use refusal::Refusal;
use values::answer::{Element as Entry, Value as Held};

// One field of the header.
impl From<Result<usize, Refusal>> for Field {
    ghost from_gives = { λ number field. field ≡ field_of (told number) };

    fn from(number: Result<usize, Refusal>) -> Field {
        match number {
            Ok(number) => Field { refused: 0, number },
            Err(refusal) => Field {
                refused: usize::from(refusal.number()),
                number: 0,
            },
        }
    }
}

// A call of the walk from `place`. The place comes from the caller: so this and `written_of` are functions, and no conversions.
pub fn step_of(call: Result<Call, Refusal>, place: usize) -> Step
    ensures { result ≡ step_here place call }
{
    match call {
        Ok(Call::Stopped(stop, at)) => Step {
            refused: 0,
            stop: stop_number(stop),
            code: 0,
            parts: 0,
            len: 0,
            place: at,
        },
        Ok(Call::Found(found)) => Step::from(found),
        Err(refusal) => Step {
            refused: refusal.number(),
            stop: 0,
            code: 0,
            parts: 0,
            len: refusal.needed(),
            place,
        },
    }
}

// An option.
impl From<Found> for Step {
    ghost from_gives = { λ found step. step ≡ option_here found };

    fn from(found: Found) -> Step {
        Step {
            refused: 0,
            stop: 0,
            code: found.code,
            parts: found.parts,
            len: found.len,
            place: found.place,
        }
    }
}

// The stops by their numbers. A conversion would have to stand with `Stop`, in a crate that knows no numbers.
pub fn stop_number(stop: Stop) -> u8
    ensures { result ≡ stop_number (stop_of stop) }
{
    match stop {
        Stop::Out => 1,
        Stop::End => 2,
        Stop::CutLength => 3,
        Stop::CutValue => 4,
        Stop::CutContinuation => 5,
    }
}

// What a value reads as.
impl From<Result<Held, Refusal>> for Value {
    ghost from_gives = { λ reading value. value ≡ reading_here reading };

    fn from(reading: Result<Held, Refusal>) -> Value {
        match reading {
            Ok(held) => Value::from(held),
            Err(refusal) => Value {
                refused: refusal.number(),
                kind: 0,
                number: 0,
                count: 0,
            },
        }
    }
}

// What a value holds.
impl From<Held> for Value {
    ghost from_gives = { λ held value. value ≡ held_here held };

    fn from(held: Held) -> Value {
        match held {
            Held::Raw => single(Kind::Raw, 0),
            Held::Address(n) => single(Kind::Address, n),
            Held::Addresses(count) => list(Kind::Addresses, count),
            Held::Pairs(count) => list(Kind::Pairs, count),
            Held::Byte(n) => single(Kind::Byte, u32::from(n)),
            Held::YesNo(yes) => single(Kind::YesNo, u32::from(yes)),
            Held::U16(n) => single(Kind::U16, u32::from(n)),
            Held::U16s(count) => list(Kind::U16s, count),
            Held::U32(n) => single(Kind::U32, n),
            Held::I32(z) => single(Kind::I32, encoder::bits_of(z)),
            Held::Text => single(Kind::Text, 0),
            Held::Codes(count) => list(Kind::Codes, count),
            Held::NodeType(node) => single(Kind::NodeType, u32::from(u8::from(node))),
            Held::MessageType(n) => single(Kind::MessageType, u32::from(n)),
            Held::ThreeBytes(a, b, c) => single(Kind::ThreeBytes, decoder::be_u32(0, a, b, c)),
            Held::Flag => single(Kind::Flag, 0),
        }
    }
}

// A value that is no list.
fn single(kind: Kind, number: u32) -> Value
    ensures { result ≡ record { refused = 0; kind = number_of kind; number = number; count = 0 } }
{
    Value {
        refused: 0,
        kind: kind.number(),
        number,
        count: 0,
    }
}

// A list.
fn list(kind: Kind, count: usize) -> Value
    ensures { result ≡ record { refused = 0; kind = number_of kind; number = 0; count = count } }
{
    Value {
        refused: 0,
        kind: kind.number(),
        number: 0,
        count,
    }
}

// An element of a list.
impl From<Result<Entry, Refusal>> for Element {
    ghost from_gives = { λ entry element. element ≡ element_of (element_says entry) };

    fn from(entry: Result<Entry, Refusal>) -> Element {
        match entry {
            Ok(Entry::Address(n)) => element(n, 0),
            Ok(Entry::Pair(a, b)) => element(a, b),
            Ok(Entry::U16(n)) => element(u32::from(n), 0),
            Ok(Entry::Code(n)) => element(u32::from(n), 0),
            Err(refusal) => Element {
                refused: refusal.number(),
                first: 0,
                second: 0,
            },
        }
    }
}

// One number, or two.
fn element(first: u32, second: u32) -> Element
    ensures { result ≡ record { refused = 0; first = first; second = second } }
{
    Element {
        refused: 0,
        first,
        second,
    }
}

// A write at `place`.
pub fn written_of(write: Result<usize, Refusal>, place: usize) -> Written
    ensures { result ≡ written_of place (told write) }
{
    match write {
        Ok(to) => Written {
            refused: 0,
            place: to,
        },
        Err(refusal) => Written {
            refused: refusal.number(),
            place,
        },
    }
}
