// The boundary to programs in Rust and in C, for the listing of a message as text.
#![tactic(auto)]

ghost use Rattle.rfc.specs.Writing.{into_room};
ghost use Rattle.lines.specs.Listing.{listing};
ghost use Rattle.crossing.specs.Carried.{Wrote};

use crossing::answers::Written;

// The listing of a message as text.
pub fn sindovaleph_write_listing(room: &mut [u8], place: usize, message: &[u8]) -> Written
    ensures { Wrote (into_room (listing message.now) room.old place)
        room.old room.new place result }
{
    crossing::written_of(lines::write_listing(room, place, message), place)
}
