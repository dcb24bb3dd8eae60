// What programs in Rust and in C call of `sindovaleph_lines`: each function of it, with its clauses, by its name and C's convention.
#![tactic(auto)]

ghost use Rattle.rfc.specs.Writing.{into_room};
ghost use Rattle.lines.specs.Listing.{listing};
ghost use Rattle.crossing.specs.Carried.{Wrote};

use crossing::answers::Written;

// The listing of a message as text.
#[unsafe(no_mangle)]
pub extern "C" fn sindovaleph_write_listing(
    room: &mut [u8],
    place: usize,
    message: &[u8],
) -> Written
    ensures { Wrote (into_room (listing message.now) room.old place)
        room.old room.new place result }
{
    sindovaleph_lines::sindovaleph_write_listing(room, place, message)
}
