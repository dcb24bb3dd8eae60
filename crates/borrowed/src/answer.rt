// What one call of the walk answers.
ghost use Rattle.std.specs.Prelude.{◌≡◌};
ghost use Rattle.borrowed.specs.Walked.{shown};

use crate::part;

// The five stops. The crate says `None` for all of them.
#[derive(Clone, Copy, Debug, PartialEq, Eq)]
pub enum Stop {
    Out,
    End,
    CutLength,
    CutValue,
    CutContinuation,
}

// A whole option, and the place behind its last part. With one part its value is the `len` bytes of the area before `place`. With more it
// is, after `step`, the first `len` bytes of the join buffer; `look` joins nothing, and the value stands in the area alone, part by part.
#[derive(Clone, Copy, Debug, PartialEq, Eq)]
pub struct Found {
    pub code: u8,
    pub parts: usize,
    pub len: usize,
    pub place: usize,
}

impl Found {
    // The value of an option that a step found, from whichever of the two slices holds it. Bytes that are not there, as no answer of
    // `step` says, are none.
    #[tactic(auto, using(crate::proofs::Shown::shown_many, crate::proofs::Shown::shown_none, crate::proofs::Shown::shown_one))]
    pub fn value<'a>(self, area: &'a [u8], join: &'a [u8]) -> &'a [u8]
        ensures { result.now ≡ shown self.parts self.len self.place area.now join.now }
    {
        if self.parts > 1 {
            return part(join, 0, self.len);
        }
        if self.len > self.place {
            return part(area, 0, 0);
        }
        part(area, self.place - self.len, self.len)
    }
}

#[derive(Clone, Copy, Debug, PartialEq, Eq)]
pub enum Step {
    // A stop, and the place behind it.
    Stopped(Stop, usize),
    Found(Found),
}

// What a first look at a place tells of a step there.
#[derive(Drop)]
pub enum First {
    // An option of one part.
    Alone(Found),
    // End, and the place behind it.
    Ends(usize),
    // A whole part, with another of the same code behind it, whole or cut.
    Several,
    // Nothing: what stands there takes more than one look.
    Other,
}
