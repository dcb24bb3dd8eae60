// The walk over an area of options as the crate's `DhcpOptionIterator` has it: it is lent, and moves its own place on. It answers what
// `borrowed::step` answers from the place it stands at.
#![tactic(auto)]

ghost use Rattle.borrowed.specs.Walked.{Stepped};
ghost use Rattle.lent.specs.Moved.{Moved};

use borrowed::answer::Step;
use refusal::Refusal;

// Where a walk goes on.
#[derive(Drop)]
pub struct Walk {
    pub place: usize,
}

impl Walk {
    // One call from where the walk stands; a refusal leaves it there. An option of two parts or more is joined in `join`.
    #[tactic(auto, using(crate::proofs::Moves::moves))]
    pub fn next(&mut self, area: &[u8], join: &mut [u8]) -> Result<Step, Refusal>
        ensures { Moved area.now self.old.place self.new.place
            join.old join.new result }
    {
        let s = borrowed::step(area, self.place, join);
        self.place = borrowed::place_after(s, self.place);
        s
    }
}

// One call of a walk that is made at `place`, for callers that hold none.
pub fn next_from(area: &[u8], place: usize, join: &mut [u8]) -> Result<Step, Refusal>
    ensures { Stepped area.now place join.old join.new result }
{
    Walk { place }.next(area, join)
}
