// The typed reading of a whole option: it starts from what a step of the walk answered.
#![tactic(auto)]

ghost use Rattle.rfc.specs.Values.{read_option};
ghost use Rattle.values.specs.Reading.{mode_of};
ghost use Rattle.borrowed.specs.Walked.{says};
ghost use Rattle.whole.specs.Whole.{shown_by, ReadWhole};

use borrowed::answer::{Step, Stop};
use refusal::Refusal;
use values::answer::Value;

#[derive(Clone, Copy, Debug, PartialEq, Eq)]
pub enum Whole {
    // A stop, and the place behind it.
    Stopped(Stop, usize),
    // An option's value, and the place behind the option.
    Valued {
        code: u8,
        value: Value,
        place: usize,
    },
}

// What the option that a step found reads as, with the area and the join buffer as the step left them. What is no option passes through:
// a refusal is the step's, or else the reading's.
#[tactic(auto, unfolding(rfc::specs::Values::read_option, rfc::specs::Numbers::and_then))]
pub fn read_option<'a>(
    found: Result<Step, Refusal>,
    area: &'a [u8],
    join: &'a [u8],
    strict: bool,
) -> Result<Whole, Refusal>
    ensures { ReadWhole (shown_by found area.now join.now)
        (read_option (mode_of strict) (says found area.now join.now)) result }
{
    match found? {
        Step::Stopped(stop, at) => Ok(Whole::Stopped(stop, at)),
        Step::Found(option) => Ok(Whole::Valued {
            code: option.code,
            value: values::read(option.code, option.value(area, join), strict)?,
            place: option.place,
        }),
    }
}
