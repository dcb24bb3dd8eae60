// What programs in Rust and in C call of `sindovaleph_elements`: each function of it, with its clauses, by its name and C's convention.
#![tactic(auto)]

ghost use Rattle.std.specs.Prelude.{◌≡◌};
ghost use Rattle.rfc.specs.Values.{read, element, plain};
ghost use Rattle.crossing.specs.Carried.{element_of};

use crossing::answers::Element;

// The element at an index of a list.
#[unsafe(no_mangle)]
pub extern "C" fn sindovaleph_element(code: u8, value: &[u8], index: usize) -> Element
    ensures { result ≡ element_of (element index (read plain code value.now)) }
{
    sindovaleph_elements::sindovaleph_element(code, value, index)
}
