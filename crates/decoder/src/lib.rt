// Numbers out of bytes in network byte order, one function a width, as the crate's `Decoder` reads them; and those at a place of a slice.
#![tactic(auto)]

ghost use Rattle.std.specs.Prelude.{◌≡◌, [], ◌∷◌, MatchOption};
ghost use Rattle.facts.specs.BigEndian.{number, number_at, signed};

// Two bytes as a number, the first the highest.
pub fn be_u16(a: u8, b: u8) -> u16
    ensures { result ≡ number (a ∷ b ∷ []) }
{
    u16::from_be_bytes([a, b])
}

// Four bytes as a number, the first the highest.
pub fn be_u32(a: u8, b: u8, c: u8, d: u8) -> u32
    ensures { result ≡ number (a ∷ b ∷ c ∷ d ∷ []) }
{
    u32::from_be_bytes([a, b, c, d])
}

// Four bytes as a number in two's complement.
pub fn be_i32(a: u8, b: u8, c: u8, d: u8) -> i32
    ensures { result ≡ signed (number (a ∷ b ∷ c ∷ d ∷ [])) }
{
    be_u32(a, b, c, d).cast_signed()
}

// The number that two bytes from `at` on are, 0 where they are not all there. A function a width, here and below, as the library has
// `from_be_bytes` for each type; they share `bytes_at`.
pub fn u16_at(bytes: &[u8], at: usize) -> u16
    ensures { result ≡ number_at 2 bytes.now at }
{
    bytes_at(bytes, at).map_or(0, |b| u16::from_be_bytes(*b))
}

// The number that four bytes from `at` on are, 0 where they are not all there.
pub fn u32_at(bytes: &[u8], at: usize) -> u32
    ensures { result ≡ number_at 4 bytes.now at }
{
    bytes_at(bytes, at).map_or(0, |b| u32::from_be_bytes(*b))
}

// The `N` bytes from `at` on, where they are all there. Where the compiler knows how many bytes there are, it makes no test.
#[tactic(auto, using(facts::proofs::BigEndian::number_past, facts::proofs::BigEndian::number_there))]
fn bytes_at<const N: usize>(bytes: &[u8], at: usize) -> Option<&[u8; N]>
    ensures { MatchOption result (number_at N bytes.now at ≡ 0) (λ b. number_at N bytes.now at ≡ number b.now) }
{
    if bytes.len() < N || at > bytes.len() - N {
        return None;
    }
    bytes[at..at + N].first_chunk()
}
