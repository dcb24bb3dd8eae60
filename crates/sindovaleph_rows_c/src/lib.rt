// What programs in Rust and in C call of `sindovaleph_rows`: each function of it, with its clauses, by its name and C's convention.
#![tactic(auto)]

ghost use Rattle.std.specs.Prelude.{length};
ghost use Rattle.sindovaleph_rows.specs.Listing.{Lists, found};
ghost use Rattle.sindovaleph_rows.specs.Writing.{WritesList};

use sindovaleph_rows::listing::Listed;
use sindovaleph_rows::writing::WrittenRows;

// Lists the options from `place` on, four numbers a row: the code, the parts, the length of the value and the place behind the
// option, as `Step` has them. Nothing is joined.
#[unsafe(no_mangle)]
pub extern "C" fn sindovaleph_list(area: &[u8], place: usize, rows: &mut [usize]) -> Listed
    ensures { Lists found area.now place rows.old rows.new result }
{
    sindovaleph_rows::listing::sindovaleph_list(area, place, rows)
}

// Writes an option for each row at `place`, one behind the other, as byte values. A row has three numbers: the code, and where the
// value begins in `values` and how long it is.
#[unsafe(no_mangle)]
pub extern "C" fn sindovaleph_write_list(
    room: &mut [u8],
    place: usize,
    rows: &[usize],
    values: &[u8],
) -> WrittenRows
    ensures { WritesList rows.now values.now room.old room.new place result }
{
    sindovaleph_rows::writing::sindovaleph_write_list(room, place, rows, values)
}
