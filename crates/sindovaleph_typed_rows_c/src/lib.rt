// What programs in Rust and in C call of `sindovaleph_typed_rows`: each function of it, with its clauses, by its name and C's convention.
#![tactic(auto)]

ghost use Rattle.values.specs.Reading.{mode_of};
ghost use Rattle.sindovaleph_rows.specs.Listing.{Lists, typed};

use sindovaleph_rows::listing::Listed;

// Lists the options from `place` on with what each reads as, plain or strict, eight numbers a row.
#[unsafe(no_mangle)]
pub extern "C" fn sindovaleph_read_list(
    area: &[u8],
    place: usize,
    rows: &mut [usize],
    strict: bool,
) -> Listed
    ensures { Lists (typed (mode_of strict)) area.now place rows.old rows.new result }
{
    sindovaleph_typed_rows::sindovaleph_read_list(area, place, rows, strict)
}
