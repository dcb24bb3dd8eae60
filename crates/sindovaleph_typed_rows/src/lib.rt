// The boundary to programs in Rust and in C, for all options of an area and what each reads as, in one call.
#![tactic(auto)]

ghost use Rattle.values.specs.Reading.{mode_of};
ghost use Rattle.sindovaleph_rows.specs.Listing.{Lists, typed};

use sindovaleph_rows::listing::Listed;

// Lists the options from `place` on with what each reads as, plain or strict, eight numbers a row.
pub fn sindovaleph_read_list(area: &[u8], place: usize, rows: &mut [usize], strict: bool) -> Listed
    ensures { Lists (typed (mode_of strict)) area.now place rows.old rows.new result }
{
    sindovaleph_rows::listing::read_list(area, place, rows, strict)
}
