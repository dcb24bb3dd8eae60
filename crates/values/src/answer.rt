// What a typed reading answers.
ghost use Rattle.std.specs.Prelude.{◌≡◌};
ghost use Rattle.rfc.specs.Values.{node_of};
ghost use Rattle.values.specs.Reading.{node_says, byte_of, count_of};

// The node types of code 46.
#[derive(Clone, Copy, Debug, PartialEq, Eq)]
pub enum Node {
    B,
    P,
    M,
    H,
    // Any other byte.
    Unknown(u8),
}

// The node type that a byte stands for.
impl From<u8> for Node {
    ghost from_gives = { λ byte node. (node_says node ≡ node_of byte) × (byte_of node ≡ byte) };

    #[tactic(auto, unfolding(rfc::specs::Values::node_of, facts::specs::Ranges::lookup, facts::specs::Ranges::within))]
    fn from(byte: u8) -> Node {
        match byte {
            1 => Node::B,
            2 => Node::P,
            4 => Node::M,
            8 => Node::H,
            _ => Node::Unknown(byte),
        }
    }
}

// The byte of a node type.
impl From<Node> for u8 {
    ghost from_gives = { λ node byte. byte ≡ byte_of node };

    fn from(node: Node) -> u8 {
        match node {
            Node::B => 1,
            Node::P => 2,
            Node::M => 4,
            Node::H => 8,
            Node::Unknown(byte) => byte,
        }
    }
}

// What a value holds, a case for each kind, in the order of their numbers.
#[derive(Clone, Copy, Debug, PartialEq, Eq)]
pub enum Value {
    // The value's bytes as they stand.
    Raw,
    Address(u32),
    // Lists say how many elements they have; `element` reads one.
    Addresses(usize),
    Pairs(usize),
    Byte(u8),
    YesNo(bool),
    U16(u16),
    U16s(usize),
    U32(u32),
    I32(i32),
    // The value's bytes, which are UTF-8.
    Text,
    Codes(usize),
    NodeType(Node),
    MessageType(u8),
    ThreeBytes(u8, u8, u8),
    // There is no value: that the option stands there says all.
    Flag,
}

impl Value {
    // How many elements a list has; what is no list has none.
    pub(crate) fn count(self) -> usize
        ensures { result ≡ count_of self }
    {
        match self {
            Value::Addresses(count)
            | Value::Pairs(count)
            | Value::U16s(count)
            | Value::Codes(count) => count,
            _ => 0,
        }
    }
}

// One element of a list.
#[derive(Clone, Copy, Debug, PartialEq, Eq)]
pub enum Element {
    Address(u32),
    Pair(u32, u32),
    U16(u16),
    Code(u8),
}
