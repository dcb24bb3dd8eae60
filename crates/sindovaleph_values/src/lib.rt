// The boundary to programs in Rust and in C, for a value read by its code. Nothing else in this archive reads one or asks for a code's kind,
// so the compiler makes one piece of it; `sindovaleph_elements` reads an element of a list.
#![tactic(auto)]

ghost use Rattle.std.specs.Prelude.{◌≡◌};
ghost use Rattle.rfc.specs.Values.{read};
ghost use Rattle.values.specs.Reading.{mode_of};
ghost use Rattle.crossing.specs.Carried.{value_of};

use crossing::answers::Value;

// What the value of an option with this code reads as, plain or strict.
pub fn sindovaleph_read(code: u8, value: &[u8], strict: bool) -> Value
    ensures { result ≡ value_of (read (mode_of strict) code value.now) }
{
    Value::from(values::read(code, value, strict))
}
