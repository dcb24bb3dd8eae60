// What programs in Rust and in C call of `sindovaleph_aggregate`: each function of it, with its clauses, by its name and C's convention.
#![tactic(auto)]

ghost use Rattle.std.specs.Prelude.{◌≡◌, length};
ghost use Rattle.rfc.specs.Aggregate as rfc;
ghost use Rattle.crossing.specs.Carried.{field_of, Steps};

use crossing::answers::{Field, Step};

// What option 52 of the options field says: 1 file, 2 sname, 3 both; 0 where there is none.
#[unsafe(no_mangle)]
pub extern "C" fn sindovaleph_overload(message: &[u8]) -> Field
    ensures { result ≡ field_of (rfc.overload_of message.now) }
{
    sindovaleph_aggregate::sindovaleph_overload(message)
}

// What `code` is in the message: an option, or out where it has no part.
#[unsafe(no_mangle)]
pub extern "C" fn sindovaleph_find(message: &[u8], code: u8, join: &mut [u8]) -> Step
    ensures { Steps 0 join.old join.new result (rfc.find message.now code (length join.old)) }
{
    sindovaleph_aggregate::sindovaleph_find(message, code, join)
}

// The option at an index, in the order in which codes first appear; out behind the last.
#[unsafe(no_mangle)]
pub extern "C" fn sindovaleph_entry(message: &[u8], index: usize, join: &mut [u8]) -> Step
    ensures { Steps 0 join.old join.new result (rfc.entry message.now index (length join.old)) }
{
    sindovaleph_aggregate::sindovaleph_entry(message, index, join)
}
