// What programs in Rust and in C call of `sindovaleph_values`: each function of it, with its clauses, by its name and C's convention.
#![tactic(auto)]

ghost use Rattle.std.specs.Prelude.{◌≡◌};
ghost use Rattle.rfc.specs.Values.{read};
ghost use Rattle.values.specs.Reading.{mode_of};
ghost use Rattle.crossing.specs.Carried.{value_of};

use crossing::answers::Value;

// What the value of an option with this code reads as, plain or strict.
#[unsafe(no_mangle)]
pub extern "C" fn sindovaleph_read(code: u8, value: &[u8], strict: bool) -> Value
    ensures { result ≡ value_of (read (mode_of strict) code value.now) }
{
    sindovaleph_values::sindovaleph_read(code, value, strict)
}
