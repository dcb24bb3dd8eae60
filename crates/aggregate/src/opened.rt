// A message that is read in this mode: what its option 52 says is clear, and no field that holds options is cut.
ghost use Rattle.std.specs.Prelude.{ℕ, ◌≡◌, ◌<◌, slice_index, MatchResult};
ghost use Rattle.rfc.specs.Aggregate.{overload_of};
ghost use Rattle.refusal.specs.Told.{says};
ghost use Rattle.aggregate.specs.Spanned.{Open, spans_of};

use crate::fields;
use crate::fields::Spans;
use refusal::Refusal;

#[derive(Clone, Copy)]
pub(crate) struct Opened<'a> {
    pub(crate) message: &'a [u8],
    named: usize,
    ghost opened: { Open message.now named },
    ghost each: { (k : ℕ) → slice_index message.now k < 256 },
}

impl<'a> Opened<'a> {
    // This message, or why it is not read.
    pub(crate) fn of(message: &'a [u8]) -> Result<Opened<'a>, Refusal>
        ensures { MatchResult result (λ opened. opened.message.now ≡ message.now)
            (λ refusal. says refusal ≡ overload_of message.now) }
    {
        let named = fields::overload(message)?;
        Ok(Opened { message, named })
    }

    // Where its fields stand.
    pub(crate) fn spans(self) -> Spans
        ensures { result ≡ spans_of self.entry.message.now self.entry.named }
    {
        fields::spans_of(self.message, self.named)
    }
}
