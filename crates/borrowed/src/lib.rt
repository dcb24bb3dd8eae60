// The walk over an area of options that is lent, as the crate's `DhcpOptionIterator::next` has it, by value: one call from a place. The area
// and the place are two parameters, as the calls from C have them; `lent` has a walk that keeps its place.
#![tactic(auto)]

pub mod answer;
mod parts;

ghost use Rattle.std.specs.Prelude.{◌≤◌, ◌≡◌, length};
ghost use Rattle.rfc.specs.Walk as rfc;
ghost use Rattle.refusal.specs.Told.{told};
ghost use Rattle.borrowed.specs.FirstLook.{first_of};
ghost use Rattle.borrowed.specs.Walked.{sizes, Stepped, Begins, Skipped, Ready, part_of, place_of};

use answer::{First, Found, Step, Stop};
use limits::MOST_BYTES;
use refusal::Refusal;

// How a call begins.
#[derive(Drop)]
enum Begun {
    // With its answer: a stop, or an option of one part.
    Done(Step),
    // At a part of an option that goes on, at this place.
    Several(usize),
}

// What a call at `place` finds; nothing is joined, and no room is too short. An answer is built anew: moved as a whole, its case would be
// packed into a word and tested again.
pub fn look(area: &[u8], place: usize) -> Result<Step, Refusal>
    ensures { told result ≡ sizes (rfc.look area.now place) }
{
    match begin(area, place)? {
        Begun::Done(Step::Stopped(stop, to)) => Ok(Step::Stopped(stop, to)),
        Begun::Done(Step::Found(found)) => Ok(Step::Found(Found { ..found })),
        Begun::Several(at) => Ok(parts::count(area, at)),
    }
}

// One call at `place`. An option of two parts or more is joined in `join`.
pub fn step(area: &[u8], place: usize, join: &mut [u8]) -> Result<Step, Refusal>
    ensures { Stepped area.now place join.old join.new result }
{
    match begin(area, place)? {
        Begun::Done(step) => Ok(step),
        Begun::Several(at) => parts::several(area, at, join),
    }
}

// A first look at `place`, for callers that are in a hurry: most options have one part and no Pad before them. One test tells that a code
// and a length stand there, and one that the value does.
#[tactic(auto, using(crate::proofs::FirstLook::first_long, crate::proofs::FirstLook::first_short, crate::proofs::FirstLook::first_pad))]
pub fn first(area: &[u8], place: usize) -> First
    ensures { result ≡ first_of area.now place }
{
    let size = area.len();
    if size > MOST_BYTES {
        return First::Other;
    }
    if size < 2 {
        return First::Other;
    }
    let last = size - 2;
    if place > last {
        return First::Other;
    }
    let code = area[place];
    if code == 0 {
        return First::Other;
    }
    if code == 255 {
        return First::Ends(place + 1);
    }
    let len = area[place + 1] as usize;
    if len > last - place {
        return First::Other;
    }
    let to = place + 2 + len;
    if to < size && area[to] == code {
        return First::Several;
    }
    First::Alone(Found {
        code,
        parts: 1,
        len,
        place: to,
    })
}

// How a call at `place` begins: two checks, then what stands behind the Pads.
#[tactic(auto, using(rfc::proofs::Walk::look_2, rfc::proofs::Walk::look_4))]
fn begin(area: &[u8], place: usize) -> Result<Begun, Refusal>
    ensures { Begins result area.now (rfc.look area.now place) }
{
    if area.len() > MOST_BYTES {
        return Err(Refusal::TooLong);
    }
    if place > area.len() {
        return Err(Refusal::PastEnd);
    }
    let at = skip_pads(area, place);
    Ok(read(area, at))
}

// The first place from `place` on that holds no Pad, or the area's end. `portions` has such a loop too: each says what its own reading finds
// there, and one for both would need a contract between, with a law for each, longer than the loop.
// A Pad is matched where it stands: with `!=` the compiler loads it for what comes behind as well, one instruction more a Pad.
#[tactic(auto, using(rfc::proofs::Places::pad_at))]
fn skip_pads(area: &[u8], place: usize) -> usize
    requires { place ≤ length area.now }
    ensures { Skipped area.now place result }
{
    let mut at = place;
    while let Some(0) = area.get(at) {
        at += 1;
    }
    at
}

// How a call begins at a place that holds no Pad.
fn read(area: &[u8], at: usize) -> Begun
    requires { Ready area.now at }
    ensures { Begins (Ok result) area.now (rfc.look area.now at) }
{
    if at >= area.len() {
        return Begun::Done(Step::Stopped(Stop::Out, at));
    }
    let code = area[at];
    if code == 255 {
        return Begun::Done(Step::Stopped(Stop::End, at + 1));
    }
    if area.len() - at < 2 {
        return Begun::Done(Step::Stopped(Stop::CutLength, at + 1));
    }
    let len = area[at + 1] as usize;
    if len > area.len() - (at + 2) {
        return Begun::Done(Step::Stopped(Stop::CutValue, at + 2));
    }
    let next = at + 2 + len;
    if next < area.len() && area[next] == code {
        return Begun::Several(at);
    }
    Begun::Done(Step::Found(Found {
        code,
        parts: 1,
        len,
        place: next,
    }))
}

// The `len` bytes from `start` on, or none where they are not all there.
#[tactic(auto, using(crate::proofs::Shown::part_none))]
pub fn part<'a>(bytes: &'a [u8], start: usize, len: usize) -> &'a [u8]
    ensures { result.now ≡ part_of bytes.now start len }
{
    match bytes.get(start..) {
        Some(rest) if len <= rest.len() => &rest[..len],
        _ => &[],
    }
}

// Where the walk goes on after a step from `place`: a refusal moves nothing.
pub fn place_after(s: Result<Step, Refusal>, place: usize) -> usize
    ensures { result ≡ place_of s place }
{
    match s {
        Ok(Step::Stopped(_, at)) => at,
        Ok(Step::Found(found)) => found.place,
        Err(_) => place,
    }
}
