// Whether bytes are UTF-8, as the crate's `Decoder::read_string` asks it of `str::from_utf8`: first past the blocks of ASCII bytes in
// front, then by whole characters, a form of the grammar of RFC 3629, section 4, for each.
#![tactic(auto)]

ghost use Rattle.std.specs.Prelude.{◌≡◌, ◌↔◌, false, [], ◌∷◌, ◌≤◌, ◌<◌, length, get_or, IsTrue, MatchOption};
ghost use Rattle.facts.specs.Ranges.{within};
ghost use Rattle.rfc.specs.Text.{utf8, range, tail};
ghost use Rattle.text.specs.Ascii.{any_high, Stopped};
ghost use Rattle.text.specs.Width.{Asks, Four, Width};

// How many bytes are looked at together for one that is not ASCII.
const BLOCK: usize = 256;

// Whether the bytes are UTF-8. They may be any bytes, of any number. (The library's `from_utf8` would answer the same, in more
// instructions than docs/SPEED.md has as the target.)
pub fn is_utf8(text: &[u8]) -> bool
    ensures { result ≡ utf8 text.now }
{
    match past_ascii(text) {
        Some(rest) => all_characters(rest),
        None => true,
    }
}

// None where all bytes are ASCII, and else what begins with the first block that has another.
fn past_ascii(text: &[u8]) -> Option<&[u8]>
    ensures { MatchOption result (any_high text.now ≡ false) (λ rest. Stopped text.now rest.now) }
{
    let mut rest = text;
    while rest.len() >= BLOCK {
        if any_high(&rest[..BLOCK]) {
            return Some(rest);
        }
        rest = &rest[BLOCK..];
    }
    high_rest(rest).then_some(rest)
}

// Whether one of the bytes is above 0x7f. There is no way out of the loop, so that it is compiled to vector code.
fn any_high(bytes: &[u8]) -> bool
    ensures { result ≡ any_high bytes.now }
{
    let mut high = false;
    for b in bytes {
        high |= *b > 0x7f;
    }
    high
}

// The same of the last bytes, which are no whole block. 8 to 15 of them are asked for by two blocks of 8, in fewer instructions: the
// second ends where they do, and may begin inside the first.
fn high_rest(rest: &[u8]) -> bool
    ensures { result ≡ any_high rest.now }
{
    let n = rest.len();
    if 8 <= n && n < 16 {
        return any_high(&rest[..8]) | any_high(&rest[n - 8..]);
    }
    any_high(rest)
}

// Whether the text is characters, up to its end.
fn all_characters(text: &[u8]) -> bool
    ensures { result ≡ utf8 text.now }
{
    let mut rest = text;
    while !rest.is_empty() {
        match width(rest) {
            Some(width) => rest = &rest[width..],
            None => return false,
        }
    }
    true
}

// How many bytes the first character has, where one stands there. The first byte decides the form, by tests and not by a `match`, which
// would be compiled to a jump through a table.
fn width(rest: &[u8]) -> Option<usize>
    requires { 0 < length rest.now }
    ensures { Width rest.now result }
{
    let first = rest[0];
    // UTF8-1 = %x00-7F
    if first < 0x80 {
        return Some(1);
    }
    // UTF8-2 = %xC2-DF UTF8-tail
    if first < 0xe0 {
        if first < 0xc2 {
            return None;
        }
        return two_bytes(rest);
    }
    // UTF8-3 = %xE0 %xA0-BF UTF8-tail / %xE1-EC 2( UTF8-tail ) / %xED %x80-9F UTF8-tail / %xEE-EF 2( UTF8-tail )
    if first < 0xf0 {
        if first == 0xe0 {
            return three_bytes(rest, 0xa0, 0xbf);
        }
        if first == 0xed {
            return three_bytes(rest, 0x80, 0x9f);
        }
        return three_bytes(rest, 0x80, 0xbf);
    }
    four_bytes(rest)
}

// The width where the first byte asks for one more, UTF8-tail = %x80-BF.
fn two_bytes(rest: &[u8]) -> Option<usize>
    requires { Asks rest.now (tail ∷ []) }
    ensures { Width rest.now result }
{
    if rest.len() < 2 || !between(rest[1], 0x80, 0xbf) {
        return None;
    }
    Some(2)
}

// The width where it asks for two more: one from `low` to `high`, and a UTF8-tail.
fn three_bytes(rest: &[u8], low: u8, high: u8) -> Option<usize>
    requires { Asks rest.now (range low high ∷ tail ∷ []) }
    ensures { Width rest.now result }
{
    if rest.len() < 3 || !between(rest[1], low, high) || !between(rest[2], 0x80, 0xbf) {
        return None;
    }
    Some(3)
}

// The width where the first byte is 0xf0 or above.
fn four_bytes(rest: &[u8]) -> Option<usize>
    requires { (0 < length rest.now) × (0xf0 ≤ get_or rest.now 0 0) }
    ensures { Width rest.now result }
{
    if rest.len() < 4
        || !begins_four(rest[0], rest[1])
        || !between(rest[2], 0x80, 0xbf)
        || !between(rest[3], 0x80, 0xbf)
    {
        return None;
    }
    Some(4)
}

// Whether two bytes begin a character of four, UTF8-4 = %xF0 %x90-BF 2( UTF8-tail ) / %xF1-F3 3( UTF8-tail ) / %xF4 %x80-8F 2( UTF8-tail ):
// a tail, and as one number from 0xf090 to 0xf48f. No test of it is true of a character, so that no jump is taken.
fn begins_four(first: u8, second: u8) -> bool
    ensures { IsTrue result ↔ Four first second }
{
    let both = first as u32 * 256 + second as u32;
    (0x80..=0xbf).contains(&second) && (0xf090..=0xf48f).contains(&both)
}

// Whether a byte is one from `low` to `high`.
fn between(b: u8, low: u8, high: u8) -> bool
    ensures { result ≡ within low high b }
{
    (low <= b) & (b <= high)
}
