// A number of a byte that document 01 gives no refusal: 0, or more than 19; and 5, where no length comes with it. It is as wide as the
// length that 5 needs: with two widths a refusal is no longer copied as two words, and rows took 1.4 times as long to lay.
ghost use Rattle.std.specs.Prelude.{◌≡◌, true};
ghost use Rattle.refusal.specs.Others.{is_other};

#[derive(Clone, Copy, Debug, PartialEq, Eq)]
pub struct Unnamed {
    pub number: usize,
    pub ghost unnamed: { is_other number ≡ true },
}
