// How what is read of classless routes crosses the boundary. `refused` is the number of a refusal, 0 for none; where one is given, every
// other number is 0, but for a place. C has no option: `found` says whether there is a route.
ghost use Rattle.std.specs.Prelude.{◌≡◌};
ghost use Rattle.refusal.specs.Told.{told};
ghost use Rattle.classless.specs.Rows.{told_by, route_of, there};
ghost use Rattle.sindovaleph_moves.specs.Crossed.{none_at, found_to, route_here, index_here, count_of};

use classless::{Route, Row};
use refusal::Refusal;

// What begins at a place of a value: a route that was found; or nothing more, or the number of a refusal, where all else is 0 but for the
// place. That is where the next row begins, behind the route; else it is the one that was given. A route by its index has 0 there.
#[repr(C)]
#[derive(Clone, Copy)]
pub struct ReadRoute {
    pub refused: u8,
    pub found: bool,
    pub width: u8,
    pub destination: u32,
    pub gateway: u32,
    pub place: usize,
}

// How many routes a value has, or the number of a refusal.
#[repr(C)]
#[derive(Drop)]
pub struct RouteCount {
    pub refused: u8,
    pub count: usize,
}

impl ReadRoute {
    // What begins at `place`.
    #[tactic(auto, using(crate::proofs::Crossed::here_refused))]
    pub(crate) fn at(place: usize, row: Result<Option<Row>, Refusal>) -> ReadRoute
        ensures { result ≡ route_here place (told_by there row) }
    {
        match row {
            Ok(Some(row)) => ReadRoute::found(row.route, row.place),
            Ok(None) => ReadRoute::none(0, place),
            Err(refusal) => ReadRoute::none(refusal.number(), place),
        }
    }

    // A route that ends before a place.
    fn found(route: Route, place: usize) -> ReadRoute
        ensures { result ≡ found_to (route_of route) place }
    {
        ReadRoute {
            refused: 0,
            found: true,
            width: route.width,
            destination: route.destination,
            gateway: route.gateway,
            place,
        }
    }

    // No route at a place: there is none, or it is refused.
    fn none(refused: u8, place: usize) -> ReadRoute
        ensures { result ≡ none_at refused place }
    {
        ReadRoute {
            refused,
            found: false,
            width: 0,
            destination: 0,
            gateway: 0,
            place,
        }
    }
}

// A route by its index.
impl From<Result<Route, Refusal>> for ReadRoute {
    ghost from_gives = { λ route read. read ≡ index_here (told_by route_of route) };

    #[tactic(auto, using(crate::proofs::Crossed::index_refused))]
    fn from(route: Result<Route, Refusal>) -> ReadRoute {
        match route {
            Ok(route) => ReadRoute::found(route, 0),
            Err(refusal) => ReadRoute::none(refusal.number(), 0),
        }
    }
}

impl From<Result<usize, Refusal>> for RouteCount {
    ghost from_gives = { λ count crossed. crossed ≡ count_of (told count) };

    #[tactic(auto, using(crate::proofs::Crossed::count_refused))]
    fn from(count: Result<usize, Refusal>) -> RouteCount {
        match count {
            Ok(count) => RouteCount { refused: 0, count },
            Err(refusal) => RouteCount {
                refused: refusal.number(),
                count: 0,
            },
        }
    }
}
