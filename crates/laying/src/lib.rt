// A value that is made of rows, laid in parts at a place of a lent room, each part with a head: its code and its length. The rows are gone
// over twice. The first pass looks at each row and counts its bytes; then it is known whether the value may be written and fits, and the
// second pass puts the bytes, one behind the other.
#![tactic(auto)]

ghost use Rattle.std.specs.Prelude.{ℕ, ◌≡◌, List, take};
ghost use mathlib.Core.List.{foldl};
ghost use Rattle.facts.specs.BigEndian.{digits};
ghost use Rattle.rfc.specs.Numbers.{given};
ghost use Rattle.rfc.specs.Strung.{RowMade, all_bytes, strung};
ghost use Rattle.laying.specs.Passes.{begun, measured, gauged, turned, opened, added, put, answered, refuse, laid, EachKnown};

use limits::{MOST_BYTES, MOST_VALUE};
use refusal::Refusal;

// The bytes of an address.
pub const ADDRESS: usize = 4;

// The rows of a value, which whoever has them goes over: all are measured, or the bytes of all are put.
pub trait Rows {
    ghost rows: { Self → List RowMade };

    fn measure(&self, pass: Pass) -> Pass
        ensures { result ≡ foldl gauged pass (rows self.now) };

    // No row is refused.
    fn put(&self, room: &mut [u8], pass: Pass) -> Pass
        requires { strung (rows self.now) ≡ given (all_bytes (rows self.now)) }
        ensures { (result, room.new) ≡ foldl put (pass, room.old) (all_bytes (rows self.now)) };

    ghost known: { (r : Self) → EachKnown (rows r) };
}

// The state of a pass over the rows. It is one type for both passes: with one for each, the functions below would take less than they do.
#[derive(Clone, Copy)]
pub struct Pass {
    // Why the value is refused, if it is. After a refusal nothing is done.
    pub refusal: Option<Refusal>,
    // The code of the option.
    pub code: u8,
    // The most bytes of a part.
    pub most: u8,
    // The place of the room where the next byte goes.
    pub at: usize,
    // How many bytes of the part that is being put are still to come.
    pub part: usize,
    // While it measures, how many bytes the value has so far; while it puts them, how many come behind the part.
    pub len: usize,
}

impl Pass {
    // A pass that measures, before a room of `n` bytes.
    #[tactic(auto, unfolding(crate::specs::Passes::begun))]
    pub fn begin(n: usize, place: usize, code: u8, most: u8) -> Pass
        ensures { result ≡ begun n place code most }
    {
        let pass = Pass {
            refusal: None,
            code,
            most,
            at: place,
            part: 0,
            len: 0,
        };
        if n > MOST_BYTES {
            return pass.refuse(Refusal::TooLong);
        }
        if place > n {
            return pass.refuse(Refusal::PastEnd);
        }
        pass
    }

    // One row is measured: it is refused, or it has so many bytes, which are counted. Past the most bytes of a value nothing is counted.
    #[tactic(auto, unfolding(crate::specs::Passes::measured))]
    pub fn measure(self, row: Result<u16, Refusal>) -> Pass
        ensures { result ≡ measured self row }
    {
        if self.refusal.is_some() {
            return self;
        }
        match row {
            Err(refusal) => self.refuse(refusal),
            Ok(n) if self.len <= MOST_VALUE => Pass {
                len: self.len + n as usize,
                ..self
            },
            Ok(_) => self,
        }
    }

    // From the pass that measured to the one that puts, before a room of `n` bytes.
    #[tactic(auto, unfolding(crate::specs::Passes::turned))]
    pub fn turn_over(self, n: usize) -> Pass
        ensures { result ≡ turned self n }
    {
        if self.refusal.is_some() {
            return self;
        }
        if self.len > MOST_VALUE {
            return self.refuse(Refusal::ValueTooLong);
        }
        if self.at > n || parts::size_in_parts(self.len as u16, self.most as u16) > n - self.at {
            return self.refuse(Refusal::NoRoom);
        }
        self
    }

    // Both passes over rows.
    #[tactic(auto, unfolding(crate::specs::Passes::laid))]
    pub fn lay<R: Rows>(self, room: &mut [u8], rows: &R) -> Result<usize, Refusal>
        ensures { (result, room.new) ≡ laid self (R.rows rows.now) room.old }
    {
        let pass = rows.measure(self).turn_over(room.len());
        if pass.refusal.is_some() {
            return pass.answer();
        }
        rows.put(room, pass).answer()
    }

    // What is answered after both passes.
    pub fn answer(self) -> Result<usize, Refusal>
        ensures { result ≡ answered self }
    {
        match self.refusal {
            Some(refusal) => Err(refusal),
            None => Ok(self.at),
        }
    }

    // Puts the first `n` of an address's four bytes, the highest first.
    pub fn put_address(self, room: &mut [u8], address: u32, n: usize) -> Pass
        ensures { (result, room.new) ≡ foldl put (self, room.old) (take n (digits 4 address)) }
    {
        let bytes = address.to_be_bytes();
        let mut pass = self;
        for byte in &bytes[..n.min(ADDRESS)] {
            pass = pass.put_next(room, *byte);
        }
        pass
    }

    // Puts the next byte of the value, and before it the head of a part where one begins.
    pub fn put_next(self, room: &mut [u8], byte: u8) -> Pass
        ensures { (result, room.new) ≡ put (self, room.old) byte }
    {
        self.open_part(room).add(room, byte)
    }

    // Puts the head of a part, its code and its length, where no byte of a part is to come. One that does not fit is left out; before the
    // second pass it was seen that all fit.
    #[tactic(auto, unfolding(crate::specs::Passes::opened))]
    fn open_part(self, room: &mut [u8]) -> Pass
        ensures { (result, room.new) ≡ opened (self, room.old) }
    {
        let at = self.at;
        if self.part > 0 {
            return self;
        }
        if room.len() < 2 || at > room.len() - 2 {
            return self;
        }
        let n = parts::next_piece(self.len, self.most as usize);
        room[at] = self.code;
        room[at + 1] = n as u8;
        Pass {
            at: at + 2,
            part: n,
            len: self.len - n,
            ..self
        }
    }

    // Puts one byte of a part, if one is to come and it fits. Here and in `open_part` the test of `part` has an `if` of its own: so the
    // compiler goes on to the next byte of a part without it, and with one `if` for all tests it did not.
    #[tactic(auto, unfolding(crate::specs::Passes::added))]
    fn add(self, room: &mut [u8], byte: u8) -> Pass
        ensures { (result, room.new) ≡ added (self, room.old) byte }
    {
        let at = self.at;
        if self.part == 0 {
            return self;
        }
        if at >= room.len() {
            return self;
        }
        room[at] = byte;
        Pass {
            at: at + 1,
            part: self.part - 1,
            ..self
        }
    }

    // The same pass, refused.
    fn refuse(self, refusal: Refusal) -> Pass
        ensures { result ≡ refuse refusal self }
    {
        Pass {
            refusal: Some(refusal),
            ..self
        }
    }
}
