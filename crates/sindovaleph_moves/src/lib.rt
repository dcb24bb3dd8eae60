// The boundary to programs in Rust and in C, for classless routes that are read, option 121, and for profiles that are moved to them from
// static routes, option 33, and back. What is read crosses as the structs of `answers`, and a move answers as every writer does.
#![tactic(auto)]

pub mod answers;

ghost use Rattle.std.specs.Prelude.{◌≡◌};
ghost use Rattle.rfc.specs.Classless as read;
ghost use Rattle.rfc.specs.Moves as rfc;
ghost use Rattle.crossing.specs.Carried.{Wrote};
ghost use Rattle.sindovaleph_moves.specs.Crossed.{route_here, count_here, index_here};

use answers::{ReadRoute, RouteCount};
use crossing::answers::Written;

// The row that begins at `place`.
pub fn sindovaleph_route_from(value: &[u8], place: usize) -> ReadRoute
    ensures { result ≡ route_here place (read.route_from value.now place) }
{
    ReadRoute::at(place, classless::route_from(value, place))
}

// The route at `index`.
pub fn sindovaleph_route_at(value: &[u8], index: usize) -> ReadRoute
    ensures { result ≡ index_here (read.route_at index value.now) }
{
    ReadRoute::from(classless::route_at(value, index))
}

// How many routes `value` has.
pub fn sindovaleph_count_routes(value: &[u8]) -> RouteCount
    ensures { result ≡ count_here (read.read_routes value.now) }
{
    RouteCount::from(classless::count_routes(value))
}

// The pairs of `value`, of option 33, written as option 121.
pub fn sindovaleph_move_out(room: &mut [u8], place: usize, value: &[u8]) -> Written
    ensures { Wrote (rfc.move_out value.now room.old place)
        room.old room.new place result }
{
    crossing::written_of(moves::move_out(room, place, value), place)
}

// The routes of `value`, of option 121, written as option 33.
pub fn sindovaleph_move_back(room: &mut [u8], place: usize, value: &[u8]) -> Written
    ensures { Wrote (rfc.move_back value.now room.old place)
        room.old room.new place result }
{
    crossing::written_of(moves::move_back(room, place, value), place)
}
