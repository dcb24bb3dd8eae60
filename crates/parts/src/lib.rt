// How a value is cut into parts: how many bytes it takes so, and how many of its bytes the next part takes.
#![tactic(auto)]

ghost use Rattle.std.specs.Prelude.{◌≡◌};
ghost use Rattle.rfc.specs.Writing.{size_in_parts, next_part};

// How many bytes so many bytes take in parts of `most`. No division is made by 0.
pub fn size_in_parts(len: u16, most: u16) -> usize
    ensures { result ≡ size_in_parts most len }
{
    let n = len as usize;
    let m = most as usize;
    if m == 0 {
        return n;
    }
    n + 2 * n.div_ceil(m)
}

// How many of so many the next part takes, where it takes no more than `most`.
pub fn next_piece(left: usize, most: usize) -> usize
    ensures { result ≡ next_part most left }
{
    left.min(most)
}
