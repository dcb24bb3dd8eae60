// Profiles moved from static routes, option 33, to classless ones, option 121, and back: a value of one, written as the other at a place of a
// lent room. The rows are gone over twice (`laying`): all are measured, the first bad one decides, and only then are bytes put. No table
// stands in between.
#![tactic(auto)]

ghost use Rattle.std.specs.Prelude.{◌≡◌, ◌%◌, ◌≤◌, length, take, drop};
ghost use mathlib.Core.List.{◌++◌, foldl};
ghost use Rattle.facts.specs.BigEndian.{digits, number};
ghost use Rattle.rfc.specs.Moves as rfc;
ghost use Rattle.encoder.specs.Written.{Wrote};
ghost use Rattle.laying.specs.Passes.{row_of, put};
ghost use Rattle.classless.specs.Rows.{route_of};
ghost use Rattle.moves.specs.Rows.{old_row, out_known, back_known};

use classless::{MOST_WIDTH, ROUTES_CODE, Route};
use laying::{ADDRESS, Pass, Rows};
use limits::{MOST_BYTES, MOST_PART};
use refusal::Refusal;

// The code of static routes.
const PAIRS_CODE: u8 = 33;

// The bytes of a pair, and of the most pairs of a part.
const PAIR: usize = 8;

const PAIRS_PART: u8 = 248;

// Where the first octet of an address begins.
const FIRST: u32 = 16777216;

// Writes the pairs of `value`, of option 33, as option 121.
pub fn move_out(room: &mut [u8], place: usize, value: &[u8]) -> Result<usize, Refusal>
    ensures { Wrote (rfc.move_out value.now room.old place)
        room.old room.new place result }
{
    if value.len() > MOST_BYTES {
        return Err(Refusal::TooLong);
    }
    let start = Pass::begin(room.len(), place, ROUTES_CODE, MOST_PART as u8);
    if let Some(refusal) = start.refusal {
        return Err(refusal);
    }
    if value.len() % PAIR > 0 {
        return Err(Refusal::WrongLength);
    }
    start.lay(room, &Pairs { value })
}

// Writes the routes of `value`, of option 121, as option 33.
pub fn move_back(room: &mut [u8], place: usize, value: &[u8]) -> Result<usize, Refusal>
    ensures { Wrote (rfc.move_back value.now room.old place)
        room.old room.new place result }
{
    if value.len() > MOST_BYTES {
        return Err(Refusal::TooLong);
    }
    let start = Pass::begin(room.len(), place, PAIRS_CODE, PAIRS_PART);
    if let Some(refusal) = start.refusal {
        return Err(refusal);
    }
    start.lay(room, &Routes { value })
}

// The pairs of a value of option 33, each moved to a route.
#[derive(Clone, Copy)]
struct Pairs<'a> {
    value: &'a [u8],
    ghost whole: { length value.now % 8 ≡ 0 },
}

impl Rows for Pairs<'_> {
    ghost rows = { λ p. rfc.out_rows p.value.now };

    ghost known = { λ p. out_known p.value.now };

    fn measure(&self, mut pass: Pass) -> Pass {
        for pair in self.value.chunks_exact(PAIR) {
            pass = pass.measure(measured_out(moved(pair)));
        }
        pass
    }

    fn put(&self, room: &mut [u8], mut pass: Pass) -> Pass {
        for pair in self.value.chunks_exact(PAIR) {
            pass = classless::put_route(room, pass, moved(pair));
        }
        pass
    }
}

// The routes of a value of option 121, each moved to a pair.
#[derive(Clone, Copy)]
struct Routes<'a> {
    value: &'a [u8],
    ghost short: { length value.now ≤ 65535 },
}

impl Rows for Routes<'_> {
    ghost rows = { λ r. rfc.back_rows r.value.now };

    ghost known = { λ r. back_known r.value.now };

    // Behind a row that is cut or too wide no other begins.
    fn measure(&self, mut pass: Pass) -> Pass {
        let mut at = 0;
        loop {
            match classless::route_from(self.value, at) {
                Ok(Some(row)) => {
                    pass = pass.measure(measured_back(row.route));
                    if pass.refusal.is_some() {
                        return pass;
                    }
                    at = row.place;
                }
                Ok(None) => return pass,
                Err(refusal) => return pass.measure(Err(refusal)),
            }
        }
    }

    fn put(&self, room: &mut [u8], mut pass: Pass) -> Pass {
        let mut at = 0;
        while let Ok(Some(row)) = classless::route_from(self.value, at) {
            pass = put_pair(room, pass, row.route);
            at = row.place;
        }
        pass
    }
}

// The route of a pair: a destination and its router.
fn moved(pair: &[u8]) -> Route
    requires { length pair.now ≡ 8 }
    ensures { route_of result ≡ rfc.pair_route (number (take 4 pair.now)) (number (drop 4 pair.now)) }
{
    let destination = decoder::u32_at(pair, 0);
    Route {
        width: width_for(destination),
        destination,
        gateway: decoder::u32_at(pair, ADDRESS),
    }
}

// How many bytes a route has that is moved out, where its destination may be.
#[tactic(auto, using(crate::proofs::Rows::out_barred, crate::proofs::Rows::out_free))]
fn measured_out(route: Route) -> Result<u16, Refusal>
    ensures { result ≡ row_of (rfc.route_out (route_of route)) }
{
    if is_barred(route.destination) {
        return Err(Refusal::DestinationBarred);
    }
    Ok(route.len())
}

// How many bytes a route has that is moved back, where it may be: those of a pair.
#[tactic(auto, using(crate::proofs::Rows::old_barred, crate::proofs::Rows::old_other, crate::proofs::Rows::old_free))]
fn measured_back(route: Route) -> Result<u16, Refusal>
    ensures { result ≡ row_of (old_row (route_of route)) }
{
    if is_barred(route.destination) {
        return Err(Refusal::DestinationBarred);
    }
    if width_for(route.destination) != route.width {
        return Err(Refusal::NoOldForm);
    }
    Ok(PAIR as u16)
}

// Puts a destination and its router.
fn put_pair(room: &mut [u8], pass: Pass, route: Route) -> Pass
    ensures { (result, room.new) ≡ foldl put (pass, room.old) (digits 4 route.destination ++ digits 4 route.gateway) }
{
    pass.put_address(room, route.destination, ADDRESS)
        .put_address(room, route.gateway, ADDRESS)
}

// Whether a destination may not be moved: 0.0.0.0, or a first octet above 223.
#[tactic(auto, unfolding(rfc::specs::Moves::barred))]
fn is_barred(destination: u32) -> bool
    ensures { result ≡ rfc.barred destination }
{
    destination == 0 || destination / FIRST > 223
}

// The width that our rule gives a destination.
#[tactic(auto, using(rfc::proofs::Moves::width_8, rfc::proofs::Moves::not_8, rfc::proofs::Moves::width_16, rfc::proofs::Moves::not_16, rfc::proofs::Moves::width_24, rfc::proofs::Moves::not_24, rfc::proofs::Moves::no_class))]
fn width_for(destination: u32) -> u8
    ensures { result ≡ rfc.width_for destination }
{
    match destination / FIRST {
        0..=127 if destination % FIRST == 0 => 8,
        128..=191 if destination % 65536 == 0 => 16,
        192..=223 if destination % 256 == 0 => 24,
        _ => MOST_WIDTH,
    }
}
