// RFC 3396's reading of a message, a mode beside the walk: all parts of one code are joined, wherever they stand in the options field and
// in the fields that option 52 names. An answer is the walk's own, with places of the message.
#![tactic(auto)]

pub mod fields;
mod gather;
mod opened;
mod seen;
mod tally;

ghost use Rattle.aggregate.specs.Gathered.{Finds, Enters};

use borrowed::answer::Step;
use opened::Opened;
use refusal::Refusal;

// What `code` is in the message: an option, joined in `join` where it has two parts or more, or out, where it has none.
pub fn find(message: &[u8], code: u8, join: &mut [u8]) -> Result<Step, Refusal>
    ensures { Finds message.now code join.old join.new result }
{
    fields::check_read(message)?;
    if code == 0 {
        return Err(Refusal::NoSuchCode);
    }
    if code == 255 {
        return Err(Refusal::NoSuchCode);
    }
    Opened::of(message)?.option(code, join)
}

// The option at an index, in the order in which codes first appear; out, where there are not so many.
pub fn entry(message: &[u8], index: usize, join: &mut [u8]) -> Result<Step, Refusal>
    ensures { Enters message.now index join.old join.new result }
{
    let opened = Opened::of(message)?;
    opened.option(opened.code_at(index), join)
}
