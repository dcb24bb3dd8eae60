// What programs in Rust and in C call of `sindovaleph_entries`: each function of it, with its clauses, by its name and C's convention.
#![tactic(auto)]

ghost use Rattle.std.specs.Prelude.{length};
ghost use Rattle.sindovaleph_entries.specs.Rows.{ListsEntries};

use sindovaleph_entries::Entries;

// Lists the options of the message in the order in which codes first appear, four numbers a row: the code, the parts, the length of the
// value and the place behind the last part, as `Step` has them. Nothing is joined.
#[unsafe(no_mangle)]
pub extern "C" fn sindovaleph_entries(message: &[u8], rows: &mut [usize]) -> Entries
    ensures { ListsEntries message.now rows.old rows.new result }
{
    sindovaleph_entries::sindovaleph_entries(message, rows)
}
