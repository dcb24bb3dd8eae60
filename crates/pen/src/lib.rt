// A text that is added to at a place of a room. What does not fit is counted and not written; so a text is measured by adding it to a
// room that is too small.
#![tactic(auto)]

ghost use Rattle.std.specs.Prelude.{ℕ, List, ◌≡◌};
ghost use Rattle.rfc.specs.Writing.{into_room};
ghost use Rattle.encoder.specs.Written.{Wrote};
ghost use Rattle.pen.specs.Texts.{decimal, named, spaced};
ghost use Rattle.pen.specs.Adding.{behind, adds_all};
ghost use Rattle.pen.specs.Added.{Put, Added};

use limits::MOST_BYTES;
use refusal::Refusal;

// A room, and the place of the next character in it.
#[derive(Drop)]
pub struct Pen<'a> {
    pub text: &'a mut [u8],
    pub at: usize,
}

impl<'a> Pen<'a> {
    // Adds one character.
    fn put(&mut self, character: u8)
        ensures { Put self.old self.new character }
    {
        if self.at < self.text.len() {
            self.text[self.at] = character;
        }
        self.at = behind(self.at);
    }

    // Adds a word.
    pub fn word(&mut self, word: &[u8])
        ensures { Added self.old self.new word.now }
    {
        for character in word {
            self.put(*character);
        }
    }

    // Adds a number in decimal.
    pub fn decimal(&mut self, number: usize)
        ensures { Added self.old self.new (decimal number) }
    {
        if number >= 10 {
            self.decimal(number / 10);
        }
        self.put((48 + number % 10) as u8);
    }

    // Adds a word, and a number behind it.
    pub fn named(&mut self, word: &[u8], number: usize)
        ensures { Added self.old self.new (named word.now number) }
    {
        self.word(word);
        self.decimal(number);
    }

    // Adds bytes, each behind a space.
    pub fn spaced(&mut self, bytes: &[u8])
        ensures { Added self.old self.new (spaced bytes.now) }
    {
        for byte in bytes {
            self.named(b" ", *byte as usize);
        }
    }
}

// The place behind a place.
fn behind(at: usize) -> usize
    ensures { result ≡ behind at }
{
    if at > MOST_BYTES {
        return at;
    }
    at + 1
}

// What has a text.
pub trait Show {
    ghost text: { Self → List ℕ };

    // Adds its text.
    fn show(&self, pen: &mut Pen)
        ensures { Added pen.old pen.new (text self.now) };
}

// Writes a text at `place`.
pub fn write<T: Show>(room: &mut [u8], place: usize, shown: &T) -> Result<usize, Refusal>
    ensures { Wrote (into_room (T.text shown.now) room.old place)
        room.old room.new place result }
{
    if room.len() > MOST_BYTES {
        return Err(Refusal::TooLong);
    }
    if place > room.len() {
        return Err(Refusal::PastEnd);
    }
    // Outside a room a text is counted and not written: so it is measured.
    let mut nowhere = [0u8; 1];
    let size = show_at(&mut nowhere, 0, shown);
    if size > room.len() - place {
        return Err(Refusal::NoRoom);
    }
    Ok(show_at(room, place, shown))
}

// Adds a text at `place`, and answers the place behind it.
fn show_at<T: Show>(room: &mut [u8], place: usize, shown: &T) -> usize
    ensures { (room.new, result) ≡ adds_all (room.old, place) (T.text shown.now) }
{
    let mut pen = Pen {
        text: room,
        at: place,
    };
    shown.show(&mut pen);
    pen.at
}
