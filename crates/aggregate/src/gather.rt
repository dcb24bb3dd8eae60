// The option that all parts of one code are: they are counted field after field, then joined.
ghost use Rattle.std.specs.Prelude.{◌+◌, ◌≡◌, ◌≤◌, length};
ghost use Rattle.facts.specs.Over.{over};
ghost use Rattle.rfc.specs.Portions.{of_code, joined_value};
ghost use Rattle.rfc.specs.Aggregate.{fields_of, aggregate, option_of};
ghost use Rattle.borrowed.specs.Walked.{Walked};
ghost use Rattle.aggregate.specs.Gathered.{value_in, Joins};
ghost use Rattle.aggregate.specs.Tallies.{tallied, none};

use crate::opened::Opened;
use crate::tally;
use crate::tally::Tally;
use borrowed::answer::{Found, Step, Stop};
use header::Header;
use portions::Portions;
use refusal::Refusal;

impl Opened<'_> {
    // The option of `code`.
    pub(crate) fn option(self, code: u8, join: &mut [u8]) -> Result<Step, Refusal>
        ensures { Walked self.entry.message.now join.old join.new result
            (option_of (fields_of self.entry.message.now) code (length join.old)) }
    {
        let all = self.tally(code);
        if all.parts == 0 {
            return Ok(Step::Stopped(Stop::Out, 0));
        }
        if all.parts > 1 {
            if all.len > join.len() {
                return Err(Refusal::JoinTooShort(all.len));
            }
            // Parts with no byte join nothing: there may be tens of thousands of them.
            if all.len > 0 {
                self.join(code, join);
            }
        }
        Ok(Step::Found(Found {
            code,
            parts: all.parts,
            len: all.len,
            place: all.place,
        }))
    }

    // Counts the parts of `code` in all fields, of which none is cut.
    fn tally(self, code: u8) -> Tally
        ensures { result ≡ tallied code none (aggregate (fields_of self.entry.message.now)) }
    {
        let at = self.spans();
        let options = tally::count(self.message, at.options, code, tally::none()).unwrap();
        let file = tally::count(&self.message[..at.file], Header::FILE, code, options).unwrap();
        tally::count(&self.message[..at.sname], Header::SNAME, code, file).unwrap()
    }

    // Joins the values of `code` of all fields in the front of `join`, which has room for them.
    fn join(self, code: u8, join: &mut [u8])
        requires { length (joined_value (of_code code (aggregate (fields_of self.message.now))))
            ≤ length join.old }
        ensures { join.new
            ≡ over join.old 0 (joined_value (of_code code (aggregate (fields_of self.entry.message.now)))) }
    {
        let at = self.spans();
        let options = join_field(self.message, at.options, code, join, 0);
        let file = join_field(&self.message[..at.file], Header::FILE, code, join, options);
        join_field(&self.message[..at.sname], Header::SNAME, code, join, file);
    }
}

// Joins the values of `code` of the field that begins at `start`, which is whole, from `to` on; answers the place behind them.
fn join_field(bytes: &[u8], start: usize, code: u8, join: &mut [u8], to: usize) -> usize
    requires { Joins bytes.now start code join.old to }
    ensures { (join.new ≡ over join.old to (value_in bytes.now start code))
        × (result ≡ to + length (value_in bytes.now start code)) }
{
    let mut end = to;
    for part in (Portions { bytes, at: start }) {
        let part = part.unwrap();
        if part.code == code {
            let value = &bytes[part.place - part.len..part.place];
            let _ = encoder::write_slice(&mut join[end..end + part.len], 0, value);
            end += part.len;
        }
    }
    end
}
