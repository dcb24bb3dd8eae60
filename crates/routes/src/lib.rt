// Classless static routes, option 121, written into a lent room from a lent table of records. The table is gone over twice: its routes are
// measured, then put (`laying`).
#![tactic(auto)]

ghost use Rattle.std.specs.Prelude.{◌≡◌, map};
ghost use mathlib.Core.List.{[], ◌∷◌};
ghost use Rattle.rfc.specs.Routes as rfc;
ghost use Rattle.encoder.specs.Written.{Wrote};
ghost use Rattle.laying.specs.Passes.{row_of};
ghost use Rattle.routes.specs.Rows.{rows_of, made_of, made_known};

pub use classless::Route;
use classless::{MOST_WIDTH, ROUTES_CODE};
use laying::{Pass, Rows};
use limits::MOST_PART;
use refusal::Refusal;

// The rows of a table.
#[derive(Clone, Copy)]
struct Table<'a> {
    routes: &'a [Route],
}

impl Rows for Table<'_> {
    ghost rows = { λ t. map made_of t.routes.now };

    ghost known = { λ t. made_known t.routes.now };

    fn measure(&self, mut pass: Pass) -> Pass {
        for route in self.routes {
            pass = pass.measure(measured(*route));
        }
        pass
    }

    fn put(&self, room: &mut [u8], mut pass: Pass) -> Pass {
        for route in self.routes {
            pass = classless::put_route(room, pass, *route);
        }
        pass
    }
}

// Writes all routes of `routes` at `place`, one behind the other.
pub fn write_routes(room: &mut [u8], place: usize, routes: &[Route]) -> Result<usize, Refusal>
    ensures { Wrote (rfc.write_routes (rows_of routes.now) room.old place)
        room.old room.new place result }
{
    Pass::begin(room.len(), place, ROUTES_CODE, MOST_PART as u8).lay(room, &Table { routes })
}

// Writes one route at `place`, for callers that hold no table.
pub fn write_route(room: &mut [u8], place: usize, route: Route) -> Result<usize, Refusal>
    ensures { Wrote (rfc.write_routes (rows_of (route ∷ [])) room.old place)
        room.old room.new place result }
{
    write_routes(room, place, &[route])
}

// How many bytes a route has, where its width is none that is refused.
#[tactic(auto, using(crate::proofs::Rows::wide_row, crate::proofs::Rows::narrow_row))]
fn measured(route: Route) -> Result<u16, Refusal>
    ensures { result ≡ row_of (made_of route) }
{
    if route.width > MOST_WIDTH {
        return Err(Refusal::WidthAbove32);
    }
    Ok(route.len())
}
