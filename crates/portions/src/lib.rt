// The parts of options that a field of a message holds, one after the other: a field ends at its End or its last byte.
#![tactic(auto)]

ghost use Rattle.std.specs.Prelude.{◌≡◌, ◌-◌, drop, length};
ghost use Rattle.std.specs.Iterator.{at_most};
ghost use Rattle.rfc.specs.Portions.{next_portion};
ghost use Rattle.portions.specs.Told.{next_of, Gives, NoPad, PadsPassed};

use refusal::Refusal;

// A whole part, and the place behind it: its value is the `len` bytes before.
#[derive(Clone, Copy, Debug, PartialEq, Eq)]
pub struct Portion {
    pub code: u8,
    pub len: usize,
    pub place: usize,
}

// The part that stands first from `at` on, behind Pads; none at the End, or where there is no byte. One whose length or value is not all
// there cuts its field.
pub fn portion_at(bytes: &[u8], at: usize) -> Result<Option<Portion>, Refusal>
    ensures { result ≡ next_of (next_portion at (drop at bytes.now)) }
{
    let i = skip_pads(bytes, at);
    if i >= bytes.len() {
        return Ok(None);
    }
    read(bytes, i)
}

// The parts of a field from a place on, one after the other. One that is cut is the last.
#[derive(Clone, Copy)]
pub struct Portions<'a> {
    pub bytes: &'a [u8],
    pub at: usize,
}

impl Iterator for Portions<'_> {
    type Item = Result<Portion, Refusal>;

    ghost next_gives = { λ s r t. Gives s.bytes.now s.at r t.bytes.now t.at };

    ghost remaining = { λ s. at_most (length s.bytes.now - s.at) };

    fn next(&mut self) -> Option<Result<Portion, Refusal>> {
        match portion_at(self.bytes, self.at) {
            Ok(None) => None,
            Ok(Some(part)) => {
                self.at = part.place;
                Some(Ok(part))
            }
            Err(refusal) => {
                self.at = self.bytes.len();
                Some(Err(refusal))
            }
        }
    }
}

// The first place from `at` on that holds no Pad; where there is none, one behind the bytes.
// (`borrowed` has such a loop too, and says why.)
#[tactic(auto, using(rfc::proofs::Portions::pad_at))]
fn skip_pads(bytes: &[u8], at: usize) -> usize
    ensures { PadsPassed bytes.now at result }
{
    let mut to = at;
    while let Some(0) = bytes.get(to) {
        to += 1;
    }
    to
}

// What stands at `at`, where there is no Pad.
fn read(bytes: &[u8], at: usize) -> Result<Option<Portion>, Refusal>
    requires { NoPad bytes.now at }
    ensures { result ≡ next_of (next_portion at (drop at bytes.now)) }
{
    let code = bytes[at];
    if code == 255 {
        return Ok(None);
    }
    if bytes.len() - at < 2 {
        return Err(Refusal::FieldCut);
    }
    let len = bytes[at + 1] as usize;
    // A part with no byte has a branch of its own, so that a processor which foresees it need not wait for the length to know where the
    // next part begins: there may be tens of thousands of them.
    if len == 0 {
        return Ok(Some(Portion {
            code,
            len: 0,
            place: at + 2,
        }));
    }
    if len > bytes.len() - (at + 2) {
        return Err(Refusal::FieldCut);
    }
    Ok(Some(Portion {
        code,
        len,
        place: at + 2 + len,
    }))
}
