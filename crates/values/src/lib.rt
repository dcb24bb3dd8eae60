// The typed reading of an option's value, by the kind of its code: plain, as the crate reads it, and strict. The value and `strict` cross from C
// as they are; a kind and a value are one thing nowhere but here.
#![tactic(auto)]

pub mod answer;
mod rules;

ghost use Rattle.std.specs.Prelude.{◌/◌, ◌<◌, ◌≡◌, length};
ghost use Rattle.rfc.specs.Numbers.{given};
ghost use Rattle.rfc.specs.Kinds.{size_of};
ghost use Rattle.rfc.specs.Values as rfc;
ghost use Rattle.kinds.specs.Kind.{number_of};
ghost use Rattle.values.specs.Reading.{mode_of, ReadAs, Tells, Right, element_says, entry_says, Entry, entry_at};

use answer::{Element, Node, Value};
use kinds::Kind;
use limits::MOST_BYTES;
use refusal::Refusal;

// What the value of an option with this code reads as.
#[tactic(auto, using(rfc::proofs::Readings::judged_plain), unfolding(rfc::specs::Values::read, rfc::specs::Values::read_checks, rfc::specs::Numbers::checked, rfc::specs::Numbers::too_long, rfc::specs::Numbers::no_code))]
pub fn read(code: u8, value: &[u8], strict: bool) -> Result<Value, Refusal>
    ensures { ReadAs value.now (rfc.read (mode_of strict) code value.now) result }
{
    if value.len() > MOST_BYTES {
        return Err(Refusal::TooLong);
    }
    if code == 0 || code == 255 {
        return Err(Refusal::NoSuchCode);
    }
    let kind = kinds::kind_of(code);
    if rules::wrong_length(kind, value, rules::length_strict(code, strict)) {
        return Err(Refusal::WrongLength);
    }
    if not_text(kind, value) {
        return Err(Refusal::NotUtf8);
    }
    if unclear(kind, value, strict) {
        return Err(Refusal::UnclearYesNo);
    }
    Ok(value_of(kind, value))
}

// 11: text is not UTF-8.
#[tactic(auto, using(kinds::proofs::Numbers::same_kind), unfolding(rfc::specs::Values::not_text))]
fn not_text(kind: Kind, value: &[u8]) -> bool
    ensures { result ≡ rfc.not_text (number_of kind) value.now }
{
    kind == Kind::Text && !text::is_utf8(value)
}

// 14: strict mode, and a yes/no byte is neither 0 nor 1.
#[tactic(auto, using(crate::proofs::Cases::yes_no_tests), unfolding(rfc::specs::Values::unclear))]
fn unclear(kind: Kind, value: &[u8], strict: bool) -> bool
    ensures { result ≡ rfc.unclear (mode_of strict) (number_of kind) value.now }
{
    strict && kind == Kind::YesNo && value.first().copied().unwrap_or(0) > 1
}

// What a value holds whose length is right for its kind.
#[tactic(auto, unfolding(rfc::specs::Values::wrong_length, rfc::specs::Values::rule_for, rfc::specs::Values::rules, facts::specs::Ranges::lookup, facts::specs::Ranges::within, rfc::specs::Kinds::size_of, rfc::specs::Kinds::sizes, rfc::specs::Values::value_of, rfc::specs::Values::contents, rfc::specs::Values::elements))]
fn value_of(kind: Kind, value: &[u8]) -> Value
    requires { Right (number_of kind) value.now }
    ensures { Tells value.now (given (rfc.value_of (number_of kind) value.now)) result }
{
    match kind {
        Kind::Raw => Value::Raw,
        Kind::Address => Value::Address(decoder::be_u32(value[0], value[1], value[2], value[3])),
        Kind::Addresses => Value::Addresses(count(kind, value)),
        Kind::Pairs => Value::Pairs(count(kind, value)),
        Kind::Byte => Value::Byte(value[0]),
        Kind::YesNo => Value::YesNo(value[0] == 1),
        Kind::U16 => Value::U16(decoder::be_u16(value[0], value[1])),
        Kind::U16s => Value::U16s(count(kind, value)),
        Kind::U32 => Value::U32(decoder::be_u32(value[0], value[1], value[2], value[3])),
        Kind::I32 => Value::I32(decoder::be_i32(value[0], value[1], value[2], value[3])),
        Kind::Text => Value::Text,
        Kind::Codes => Value::Codes(count(kind, value)),
        Kind::NodeType => Value::NodeType(Node::from(value[0])),
        Kind::MessageType => Value::MessageType(value[0]),
        Kind::ThreeBytes => Value::ThreeBytes(value[0], value[1], value[2]),
        Kind::Flag => Value::Flag,
    }
}

// The elements of a list.
fn count(kind: Kind, value: &[u8]) -> usize
    requires { 0 < size_of (number_of kind) }
    ensures { result ≡ length value.now / size_of (number_of kind) }
{
    value.len() / kind.element_size()
}

// The element at an index of a list: addresses, pairs of them, u16s or codes. What is no list has no element.
pub fn element(code: u8, value: &[u8], index: usize) -> Result<Element, Refusal>
    ensures { element_says result ≡ rfc.element index (rfc.read rfc.plain code value.now) }
{
    let held = read(code, value, false)?;
    if index >= held.count() {
        return Err(Refusal::PastEnd);
    }
    Ok(entry(kinds::kind_of(code), value, index))
}

// The element at an index that a list has.
fn entry(kind: Kind, value: &[u8], index: usize) -> Element
    requires { Entry (number_of kind) value.now index }
    ensures { entry_says result ≡ entry_at (number_of kind) value.now index }
{
    let size = kind.element_size();
    let at = index * size;
    let bytes = &value[at..at + size];
    match kind {
        Kind::Addresses => Element::Address(decoder::u32_at(bytes, 0)),
        Kind::Pairs => Element::Pair(decoder::u32_at(bytes, 0), decoder::u32_at(bytes, 4)),
        Kind::U16s => Element::U16(decoder::u16_at(bytes, 0)),
        _ => Element::Code(value[at]),
    }
}
