// The boundary to programs in Rust and in C, for RFC 3396's reading of a message: all parts of one code, over the fields that option 52
// names. What stands in `Step` as a place is a place of the message.
#![tactic(auto)]

ghost use Rattle.std.specs.Prelude.{◌≡◌, length};
ghost use Rattle.rfc.specs.Aggregate as rfc;
ghost use Rattle.crossing.specs.Carried.{field_of, Steps};

use crossing::answers::{Field, Step};

// What option 52 of the options field says: 1 file, 2 sname, 3 both; 0 where there is none, as the definition has it.
pub fn sindovaleph_overload(message: &[u8]) -> Field
    ensures { result ≡ field_of (rfc.overload_of message.now) }
{
    Field::from(aggregate::fields::overload(message))
}

// What `code` is in the message: an option, or out where it has no part.
#[tactic(auto, using(crossing::proofs::Carries::step_crosses))]
pub fn sindovaleph_find(message: &[u8], code: u8, join: &mut [u8]) -> Step
    ensures { Steps 0 join.old join.new result (rfc.find message.now code (length join.old)) }
{
    crossing::step_of(aggregate::find(message, code, join), 0)
}

// The option at an index, in the order in which codes first appear; out behind the last.
#[tactic(auto, using(crossing::proofs::Carries::step_crosses))]
pub fn sindovaleph_entry(message: &[u8], index: usize, join: &mut [u8]) -> Step
    ensures { Steps 0 join.old join.new result (rfc.entry message.now index (length join.old)) }
{
    crossing::step_of(aggregate::entry(message, index, join), 0)
}
