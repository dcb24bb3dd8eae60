// A row of classless routes, option 121: its width, the significant bytes of its destination, its gateway. Rows are read out of a value, from
// a place on or by their index, with the destination masked to its width; and one is put into a value that is being written.
#![tactic(auto)]

ghost use Rattle.std.specs.Prelude.{◌≡◌, min, ◌≤◌, length};
ghost use mathlib.Core.List.{foldl};
ghost use Rattle.rfc.specs.Routes as rfc;
ghost use Rattle.rfc.specs.Classless as read;
ghost use Rattle.refusal.specs.Told.{told};
ghost use Rattle.laying.specs.Passes.{put};
ghost use Rattle.classless.specs.Rows.{told_by, route_of, there, how_many, Scanned};

use laying::{ADDRESS, Pass};
use limits::MOST_BYTES;
use refusal::Refusal;

// The code of classless static routes.
pub const ROUTES_CODE: u8 = 121;

// The most bits of a subnet mask.
pub const MOST_WIDTH: u8 = 32;

// A route: the width of its subnet mask, its destination and its gateway. Programs in other languages lend tables of it.
#[repr(C)]
#[derive(Clone, Copy)]
pub struct Route {
    pub width: u8,
    pub destination: u32,
    pub gateway: u32,
}

impl Route {
    // How many bytes it has, written.
    #[tactic(auto, using(rfc::proofs::Routes::length_route))]
    pub fn len(self) -> u16
        ensures { result ≡ length (rfc.route_bytes (route_of self)) }
    {
        (1 + significant(self.width) + ADDRESS) as u16
    }
}

// A row that was read: its route, and the place behind it, where the next row begins.
#[derive(Clone, Copy)]
pub struct Row {
    pub route: Route,
    pub place: usize,
}

// What was seen of the rows of a value: how many there are, and the place of the one at the index that was looked for; where there is none,
// the end.
#[derive(Drop)]
struct Scan {
    count: usize,
    place: usize,
}

// The row that begins at `place`, if the value does not end there. Behind a width there are four bytes or more, so that the destination is
// read with what stands behind its significant bytes, which is masked away.
#[tactic(auto, using(rfc::proofs::Classless::from_2, rfc::proofs::Classless::from_4, rfc::proofs::Classless::from_end))]
pub fn route_from(value: &[u8], place: usize) -> Result<Option<Row>, Refusal>
    ensures { told_by there result ≡ read.route_from value.now place }
{
    if value.len() > MOST_BYTES {
        return Err(Refusal::TooLong);
    }
    if place > value.len() {
        return Err(Refusal::PastEnd);
    }
    if place == value.len() {
        return Ok(None);
    }
    let width = value[place];
    if width > MOST_WIDTH {
        return Err(Refusal::WidthAbove32);
    }
    let at = place + 1;
    let n = significant(width);
    if value.len() - at < n + ADDRESS {
        return Err(Refusal::WrongLength);
    }
    let route = Route {
        width,
        destination: masked(width, decoder::u32_at(value, at)),
        gateway: decoder::u32_at(value, at + n),
    };
    Ok(Some(Row {
        route,
        place: at + n + ADDRESS,
    }))
}

// How many routes `value` has.
pub fn count_routes(value: &[u8]) -> Result<usize, Refusal>
    ensures { told result ≡ how_many (read.read_routes value.now) }
{
    let scan = scan_rows(value, 0)?;
    Ok(scan.count)
}

// The route at `index`. All rows are looked at first.
pub fn route_at(value: &[u8], index: usize) -> Result<Route, Refusal>
    ensures { told_by route_of result ≡ read.route_at index value.now }
{
    let scan = scan_rows(value, index)?;
    match route_from(value, scan.place)? {
        Some(row) => Ok(row.route),
        None => Err(Refusal::PastEnd),
    }
}

// All rows of `value`, counted, and the place of the one at `index`.
fn scan_rows(value: &[u8], index: usize) -> Result<Scan, Refusal>
    ensures { Scanned index value.now result }
{
    let mut scan = Scan {
        count: 0,
        place: value.len(),
    };
    let mut at = 0;
    while let Some(row) = route_from(value, at)? {
        if scan.count == index {
            scan.place = at;
        }
        scan.count += 1;
        at = row.place;
    }
    Ok(scan)
}

// An address with the bits behind its first `width` ones put to zero.
#[tactic(auto, using(rfc::proofs::Classless::masked_none, rfc::proofs::Classless::masked_shift))]
fn masked(width: u8, address: u32) -> u32
    requires { width ≤ 32 }
    ensures { result ≡ read.masked width address }
{
    if width == 0 {
        return 0;
    }
    let n = (MOST_WIDTH - width) as u32;
    (address >> n) << n
}

// How many bytes of a destination are written. The sum does not overflow; with `div_ceil`, which looks at the remainder, it took a third
// longer to count routes.
#[tactic(auto, using(rfc::proofs::Routes::significant_is))]
pub fn significant(width: u8) -> usize
    ensures { result ≡ min 4 (rfc.significant width) }
{
    ((usize::from(width) + 7) / 8).min(ADDRESS)
}

// Puts the bytes of one route: its width, the significant bytes of its destination, its gateway.
pub fn put_route(room: &mut [u8], pass: Pass, route: Route) -> Pass
    ensures { (result, room.new) ≡ foldl put (pass, room.old) (rfc.route_bytes (route_of route)) }
{
    pass.put_next(room, route.width)
        .put_address(room, route.destination, significant(route.width))
        .put_address(room, route.gateway, ADDRESS)
}
