// What programs in Rust and in C call of `sindovaleph_moves`: each function of it, with its clauses, by its name and C's convention.
#![tactic(auto)]

ghost use Rattle.std.specs.Prelude.{◌≡◌};
ghost use Rattle.rfc.specs.Classless as read;
ghost use Rattle.rfc.specs.Moves as rfc;
ghost use Rattle.crossing.specs.Carried.{Wrote};
ghost use Rattle.sindovaleph_moves.specs.Crossed.{route_here, count_here, index_here};

use crossing::answers::Written;
use sindovaleph_moves::answers::{ReadRoute, RouteCount};

// The row that begins at `place`.
#[unsafe(no_mangle)]
pub extern "C" fn sindovaleph_route_from(value: &[u8], place: usize) -> ReadRoute
    ensures { result ≡ route_here place (read.route_from value.now place) }
{
    sindovaleph_moves::sindovaleph_route_from(value, place)
}

// The route at `index`.
#[unsafe(no_mangle)]
pub extern "C" fn sindovaleph_route_at(value: &[u8], index: usize) -> ReadRoute
    ensures { result ≡ index_here (read.route_at index value.now) }
{
    sindovaleph_moves::sindovaleph_route_at(value, index)
}

// How many routes `value` has.
#[unsafe(no_mangle)]
pub extern "C" fn sindovaleph_count_routes(value: &[u8]) -> RouteCount
    ensures { result ≡ count_here (read.read_routes value.now) }
{
    sindovaleph_moves::sindovaleph_count_routes(value)
}

// The pairs of `value`, of option 33, written as option 121.
#[unsafe(no_mangle)]
pub extern "C" fn sindovaleph_move_out(room: &mut [u8], place: usize, value: &[u8]) -> Written
    ensures { Wrote (rfc.move_out value.now room.old place)
        room.old room.new place result }
{
    sindovaleph_moves::sindovaleph_move_out(room, place, value)
}

// The routes of `value`, of option 121, written as option 33.
#[unsafe(no_mangle)]
pub extern "C" fn sindovaleph_move_back(room: &mut [u8], place: usize, value: &[u8]) -> Written
    ensures { Wrote (rfc.move_back value.now room.old place)
        room.old room.new place result }
{
    sindovaleph_moves::sindovaleph_move_back(room, place, value)
}
