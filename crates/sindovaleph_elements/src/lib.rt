// The boundary to programs in Rust and in C, for one element of a list. It reads the list first, and stands apart from `sindovaleph_read`
// so that in each archive one function alone reads values.
#![tactic(auto)]

ghost use Rattle.std.specs.Prelude.{◌≡◌};
ghost use Rattle.rfc.specs.Values.{read, element, plain};
ghost use Rattle.crossing.specs.Carried.{element_of};

use crossing::answers::Element;

// The element at an index of a list.
pub fn sindovaleph_element(code: u8, value: &[u8], index: usize) -> Element
    ensures { result ≡ element_of (element index (read plain code value.now)) }
{
    Element::from(values::element(code, value, index))
}
