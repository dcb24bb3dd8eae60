// The rule for a value's length, by its kind, in plain reading and in strict; and the one code that strict reading judges plainly.
ghost use Rattle.std.specs.Prelude.{◌≡◌};
ghost use Rattle.rfc.specs.Values.{rule_for, wrong_length, length_mode, breaks};
ghost use Rattle.kinds.specs.Kind.{number_of};
ghost use Rattle.values.specs.Reading.{mode_of};
ghost use Rattle.values.specs.Rules.{rule_says};

use kinds::Kind;

// What a value's length has to be, by the size of an element: a multiple of it, also 0; exactly it; at least it; or one element or more.
#[derive(Clone, Copy)]
enum Rule {
    Multiple,
    Exactly,
    AtLeast,
    OneOrMore,
}

impl Rule {
    // The rule for a kind. Strict reading asks for an exact length, and for one element or more in a list or text.
    #[tactic(auto, unfolding(rfc::specs::Values::rule_for, rfc::specs::Values::rules, facts::specs::Ranges::lookup, facts::specs::Ranges::within))]
    fn of(kind: Kind, strict: bool) -> Rule
        ensures { rule_says result ≡ rule_for (mode_of strict) (number_of kind) }
    {
        match kind {
            Kind::Raw => Rule::Multiple,
            Kind::Address => Rule::Exactly,
            Kind::Addresses | Kind::Pairs | Kind::U16s | Kind::Text | Kind::Codes => {
                if strict {
                    Rule::OneOrMore
                } else {
                    Rule::Multiple
                }
            }
            _ => if strict { Rule::Exactly } else { Rule::AtLeast },
        }
    }

    // Whether a length breaks it.
    fn is_broken(self, size: usize, len: usize) -> bool
        ensures { result ≡ breaks (rule_says self) size len }
    {
        match self {
            Rule::Multiple => !len.is_multiple_of(size),
            Rule::Exactly => len != size,
            Rule::AtLeast => len < size,
            Rule::OneOrMore => len == 0 || !len.is_multiple_of(size),
        }
    }
}

// The code of the one list that may be empty in strict mode too, for "no home agents" (RFC 2132, section 8.13).
const HOME_AGENTS: u8 = 68;

// Whether the length of a code's value is judged by the strict rules: that of the home agents never is.
#[tactic(auto, unfolding(rfc::specs::Values::length_mode))]
pub(crate) fn length_strict(code: u8, strict: bool) -> bool
    ensures { mode_of result ≡ length_mode (mode_of strict) code }
{
    strict && code != HOME_AGENTS
}

// Whether the value's length breaks the rule for a kind.
#[tactic(auto, unfolding(rfc::specs::Values::wrong_length))]
fn breaks_rule(kind: Kind, value: &[u8], strict: bool) -> bool
    ensures { result ≡ wrong_length (mode_of strict) (number_of kind) value.now }
{
    Rule::of(kind, strict).is_broken(kind.element_size(), value.len())
}

// 10: the value's length is wrong for its kind. Each arm names its kind, so that the compiler knows the rule and the size: one call for all
// kinds looks both up and divides by the size, and a reading then takes twice as long.
pub(crate) fn wrong_length(kind: Kind, value: &[u8], strict: bool) -> bool
    ensures { result ≡ wrong_length (mode_of strict) (number_of kind) value.now }
{
    match kind {
        Kind::Raw => breaks_rule(Kind::Raw, value, strict),
        Kind::Address => breaks_rule(Kind::Address, value, strict),
        Kind::Addresses => breaks_rule(Kind::Addresses, value, strict),
        Kind::Pairs => breaks_rule(Kind::Pairs, value, strict),
        Kind::Byte => breaks_rule(Kind::Byte, value, strict),
        Kind::YesNo => breaks_rule(Kind::YesNo, value, strict),
        Kind::U16 => breaks_rule(Kind::U16, value, strict),
        Kind::U16s => breaks_rule(Kind::U16s, value, strict),
        Kind::U32 => breaks_rule(Kind::U32, value, strict),
        Kind::I32 => breaks_rule(Kind::I32, value, strict),
        Kind::Text => breaks_rule(Kind::Text, value, strict),
        Kind::Codes => breaks_rule(Kind::Codes, value, strict),
        Kind::NodeType => breaks_rule(Kind::NodeType, value, strict),
        Kind::MessageType => breaks_rule(Kind::MessageType, value, strict),
        Kind::ThreeBytes => breaks_rule(Kind::ThreeBytes, value, strict),
        Kind::Flag => breaks_rule(Kind::Flag, value, strict),
    }
}
