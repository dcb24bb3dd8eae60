// An option of several parts: they are counted and measured, then joined.
ghost use Rattle.std.specs.Prelude.{◌+◌, ◌*◌, ◌≤◌, ◌≡◌, length, drop, IfSome};
ghost use Rattle.facts.specs.Over.{over};
ghost use Rattle.rfc.specs.Numbers.{given, most_bytes};
ghost use Rattle.rfc.specs.Walk.{further, look};
ghost use Rattle.borrowed.specs.Walked.{sizes, Stepped, Continues, size_of, PartsTo, values_at};

use crate::answer::{Found, Step, Stop};
use refusal::Refusal;

// The further parts of an option: so many, with so many bytes of values.
#[derive(Drop)]
pub struct Run {
    pub parts: usize,
    pub len: usize,
}

// What a call finds at `at`, where an option of several parts begins; nothing is joined.
pub(crate) fn count(area: &[u8], at: usize) -> Step
    requires { Continues area.now at }
    ensures { given result ≡ sizes (look area.now at) }
{
    let code = area[at];
    let len = area[at + 1] as usize;
    let next = at + 2 + len;
    match scan(area, next, code) {
        None => Step::Stopped(Stop::CutContinuation, next),
        Some(run) => Step::Found(Found {
            code,
            parts: run.parts + 1,
            len: len + run.len,
            place: next + 2 * run.parts + run.len,
        }),
    }
}

// One call at `at`, where an option of several parts begins: they are joined, where there is room.
pub(crate) fn several(area: &[u8], at: usize, join: &mut [u8]) -> Result<Step, Refusal>
    requires { Continues area.now at }
    ensures { Stepped area.now at join.old join.new result }
{
    match count(area, at) {
        Step::Found(found) => {
            if found.len > join.len() {
                return Err(Refusal::JoinTooShort(found.len));
            }
            join_parts(area, at, found.place, join);
            Ok(Step::Found(found))
        }
        Step::Stopped(stop, to) => Ok(Step::Stopped(stop, to)),
    }
}

// The further parts of `code` from `at` on, or none where one of them is cut. An empty part is passed by a branch of its own: the processor
// guesses the branch and goes on to the next part, where a sum would wait for the length to be loaded.
#[tactic(auto, using(crate::proofs::Runs::scanning))]
fn scan(area: &[u8], at: usize, code: u8) -> Option<Run>
    requires { (length area.now ≤ most_bytes) × (at ≤ length area.now) }
    ensures told { result ≡ size_of (further code (drop at area.now)) }
    ensures within { IfSome result (λ run. at + (2 * run.parts + run.len) ≤ length area.now) }
{
    let mut i = at;
    let mut parts: usize = 0;
    let mut len: usize = 0;
    while i < area.len() {
        if area[i] != code {
            return Some(Run { parts, len });
        }
        if i + 1 >= area.len() {
            return None;
        }
        let n = area[i + 1] as usize;
        i += 2;
        parts += 1;
        if n != 0 {
            i += n;
            if i > area.len() {
                return None;
            }
            len += n;
        }
    }
    Some(Run { parts, len })
}

// Joins the values of the parts that stand from `at` to `end` in the front of `join`. Empty parts are passed as in `scan`, and a value is
// written into just its part of `join`: then nothing is left to be tested, and nothing is refused.
fn join_parts(area: &[u8], at: usize, end: usize, join: &mut [u8])
    requires { PartsTo area.now at end (length join.old) }
    ensures { join.new ≡ over join.old 0 (values_at area.now at) }
{
    let mut i = at;
    let mut to: usize = 0;
    while i < end {
        let n = area[i + 1] as usize;
        i += 2;
        if n != 0 {
            let _ = encoder::write_slice(&mut join[to..to + n], 0, &area[i..i + n]);
            i += n;
            to += n;
        }
    }
}
