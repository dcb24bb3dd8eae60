// Which fields of a message hold options: the options field, and those that its option 52 names.
ghost use Rattle.std.specs.Prelude.{◌≡◌, ◌≤◌, cond, ◌||◌, eqb, length, MatchResult};
ghost use Rattle.rfc.specs.Numbers.{least_message};
ghost use Rattle.rfc.specs.Header.{area};
ghost use Rattle.rfc.specs.Portions.{parts_in};
ghost use Rattle.rfc.specs.Aggregate.{fields_of, overload_code, options_read, overload_of};
ghost use Rattle.refusal.specs.Told.{told};
ghost use Rattle.header.specs.Header.{Stopped};
ghost use Rattle.aggregate.specs.Spanned.{Whole, options_start, spans_of, overload_said, named_said};
ghost use Rattle.aggregate.specs.Tallies.{tallied, none};

use crate::tally;
use crate::tally::Tally;
use header::Header;
use limits::{LEAST_MESSAGE, MOST_BYTES};
use refusal::Refusal;

// The code of "option overload" (RFC 2132, section 9.3).
const OVERLOAD: u8 = 52;

// Where the fields stand: the options from `options` to the message's end, file up to `file`, sname up to `sname`. One that is not read is
// empty.
#[derive(Clone, Copy, Debug, PartialEq, Eq)]
pub struct Spans {
    pub options: usize,
    pub file: usize,
    pub sname: usize,
}

// What option 52 of the options field says: 1 file, 2 sname, 3 both; 0 where there is none, as the definition `overload_of` has it.
pub fn overload(message: &[u8]) -> Result<usize, Refusal>
    ensures { told result ≡ overload_of message.now }
{
    check_read(message)?;
    let counted = tally::count(message, options_start(message), OVERLOAD, tally::none())?;
    let named = overload_byte(message, counted)?;
    check_named(message, named)?;
    Ok(named)
}

// Whether the message is read at all. `header` tests the same behind each of its readers, and has no function for the test alone.
#[tactic(auto, using(header::proofs::Readers::long_stops, header::proofs::Readers::short_stops))]
pub(crate) fn check_read(message: &[u8]) -> Result<(), Refusal>
    ensures { MatchResult result (λ _. Whole message.now) (λ refusal. Stopped message.now refusal) }
{
    if message.len() > MOST_BYTES {
        return Err(Refusal::TooLong);
    }
    if message.len() < LEAST_MESSAGE {
        return Err(Refusal::MessageTooShort);
    }
    Ok(())
}

// What one byte says that was counted as option 52.
#[tactic(auto, using(crate::proofs::Overloaded::none_says, crate::proofs::Overloaded::often_says, crate::proofs::Overloaded::long_says, crate::proofs::Overloaded::byte_says, crate::proofs::Overloaded::zero_says, crate::proofs::Overloaded::above_says))]
fn overload_byte(message: &[u8], counted: Tally) -> Result<usize, Refusal>
    requires { counted ≡ tallied overload_code none (parts_in (options_read (fields_of message.now))) }
    ensures { result ≡ overload_said (fields_of message.now) }
{
    if counted.parts == 0 {
        return Ok(0);
    }
    if counted.parts > 1 {
        return Err(Refusal::UnclearOverload);
    }
    if counted.len != 1 {
        return Err(Refusal::UnclearOverload);
    }
    match message[counted.place - 1] {
        named @ 1..=3 => Ok(named as usize),
        _ => Err(Refusal::UnclearOverload),
    }
}

// Whether no field is cut that is named.
fn check_named(message: &[u8], named: usize) -> Result<(), Refusal>
    requires { Whole message.now }
    ensures { result ≡ named_said message.now named }
{
    let at = spans_of(message, named);
    tally::count(&message[..at.file], Header::FILE, 0, tally::none())?;
    tally::count(&message[..at.sname], Header::SNAME, 0, tally::none())?;
    Ok(())
}

// The fields of a message whose option 52 says `named`.
pub fn spans_of(message: &[u8], named: usize) -> Spans
    ensures { result ≡ spans_of message.now named }
{
    Spans {
        options: options_start(message),
        file: end_of(named, 1, Header::FILE, Header::MAGIC),
        sname: end_of(named, 2, Header::SNAME, Header::FILE),
    }
}

// Where the options begin.
fn options_start(message: &[u8]) -> usize
    ensures { result ≡ options_start message.now (area message.now) }
{
    match Header::area(message) {
        Ok(Some(area)) => area.start,
        _ => message.len(),
    }
}

// Where a field ends that `alone` names, and 3, which names both: at `end` where it is named, and else at its start.
fn end_of(named: usize, alone: usize, start: usize, end: usize) -> usize
    ensures { result ≡ cond (eqb named alone || eqb named 3) end start }
{
    if named == alone {
        return end;
    }
    if named == 3 {
        return end;
    }
    start
}
