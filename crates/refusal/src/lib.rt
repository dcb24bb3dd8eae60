// Why a call is refused: what the code calls each of the numbers that document 01 gives a caller, and any other number of a byte.
#![tactic(auto)]

pub mod unnamed;

ghost use Rattle.std.specs.Prelude.{ℕ, ◌≡◌};
ghost use Rattle.rfc.specs.Numbers.{Answer, refused};
ghost use Rattle.refusal.specs.Told.{number_of, needed_of, says};

use unnamed::Unnamed;

#[derive(Clone, Copy, Debug, PartialEq, Eq)]
pub enum Refusal {
    // 1: the message has fewer than 240 bytes; of a stream, a frame has.
    MessageTooShort,
    // 2: a message, an area, a room or a value to be read has more than 65,535 bytes.
    TooLong,
    // 3: hlen says that chaddr has more bytes than the message has from byte 28 on.
    ChaddrPastEnd,
    // 4: a place is past the end, an element's index is not below the count, or a row's value does not stand in the values.
    PastEnd,
    // 5: the room to join an option of two or more parts in is shorter than the length that is needed.
    JoinTooShort(usize),
    // 6: the code is 0 or 255, which have no value.
    NoSuchCode,
    // 7: the value to be written has more bytes than a value may have.
    ValueTooLong,
    // 8: what is to be written does not fit from the place to the room's end.
    NoRoom,
    // 9: a typed write names a code of another kind.
    OtherKind,
    // 10: the value's length is wrong for its kind, or a route is cut.
    WrongLength,
    // 11: text is not UTF-8.
    NotUtf8,
    // 12: a route's width is above 32.
    WidthAbove32,
    // 13: a list of pairs has an odd number of addresses.
    OddPairs,
    // 14: strict reading: a yes/no byte is neither 0 nor 1.
    UnclearYesNo,
    // 15: RFC 3396's reading: the options field is cut, or one that option 52 names.
    FieldCut,
    // 16: RFC 3396's reading: option 52 of the options field has more than one part, or is not one byte of 1 to 3.
    UnclearOverload,
    // 17: a stream: the size of a frame is more than the buffer has.
    SizeAboveBuffer,
    // 18: a move between options 33 and 121: a destination, masked to its width, is 0.0.0.0 or has a first octet above 223.
    DestinationBarred,
    // 19: a move back to option 33: a route has another width than its masked destination gives it there.
    NoOldForm,
    // Any other number, and 5 without a length. The library refuses nothing by one; what takes a refusal takes these too.
    Other(Unnamed),
}

impl Refusal {
    // The number by which the documents, and programs in other languages, know it.
    pub fn number(self) -> u8
        ensures { result ≡ number_of self }
    {
        match self {
            Refusal::MessageTooShort => 1,
            Refusal::TooLong => 2,
            Refusal::ChaddrPastEnd => 3,
            Refusal::PastEnd => 4,
            Refusal::JoinTooShort(_) => 5,
            Refusal::NoSuchCode => 6,
            Refusal::ValueTooLong => 7,
            Refusal::NoRoom => 8,
            Refusal::OtherKind => 9,
            Refusal::WrongLength => 10,
            Refusal::NotUtf8 => 11,
            Refusal::WidthAbove32 => 12,
            Refusal::OddPairs => 13,
            Refusal::UnclearYesNo => 14,
            Refusal::FieldCut => 15,
            Refusal::UnclearOverload => 16,
            Refusal::SizeAboveBuffer => 17,
            Refusal::DestinationBarred => 18,
            Refusal::NoOldForm => 19,
            Refusal::Other(other) => other.number as u8,
        }
    }

    // The length that 5 needs; 0 for every other.
    pub fn needed(self) -> usize
        ensures { result ≡ needed_of self }
    {
        match self {
            Refusal::JoinTooShort(len) => len,
            _ => 0,
        }
    }
}

// The refusal by a number. With 5 it is not that of a join buffer, which has its length.
impl From<u8> for Refusal {
    ghost from_gives = { λ number refusal. ◌≡◌ {A = Answer ℕ} (says refusal) (refused number) };

    fn from(number: u8) -> Refusal {
        match number {
            1 => Refusal::MessageTooShort,
            2 => Refusal::TooLong,
            3 => Refusal::ChaddrPastEnd,
            4 => Refusal::PastEnd,
            6 => Refusal::NoSuchCode,
            7 => Refusal::ValueTooLong,
            8 => Refusal::NoRoom,
            9 => Refusal::OtherKind,
            10 => Refusal::WrongLength,
            11 => Refusal::NotUtf8,
            12 => Refusal::WidthAbove32,
            13 => Refusal::OddPairs,
            14 => Refusal::UnclearYesNo,
            15 => Refusal::FieldCut,
            16 => Refusal::UnclearOverload,
            17 => Refusal::SizeAboveBuffer,
            18 => Refusal::DestinationBarred,
            19 => Refusal::NoOldForm,
            _ => Refusal::Other(Unnamed {
                number: usize::from(number),
            }),
        }
    }
}
