// The kind of each option code, and the bytes in one element of a kind. Other crates know both by the contracts of the functions.
//
// A code's kind is worked out from ranges of codes, in the order of the codes. A function has the codes of a section of RFC 2132, or of
// later RFCs, and `kind_of` says up to which code each function goes. In a function, a test says up to which code a range goes; then comes
// its kind, and behind that the names of its options. All tests are by `<=`: a `match` would become a table of 600 read-only bytes.
#![tactic(auto, using(rfc::proofs::Codes::kind_from_to), unfolding(rfc::specs::Kinds::kind_of, rfc::specs::Kinds::kinds, facts::specs::Ranges::lookup, facts::specs::Ranges::within))]

ghost use Rattle.std.specs.Prelude.{◌≡◌, ◌≤◌};
ghost use Rattle.rfc.specs.Kinds.{kind_of, size_of};
ghost use Rattle.kinds.specs.Kind.{number_of, Numbers};

// The kinds, in the order of their numbers: Raw is kind 0, and Flag kind 15.
#[derive(Clone, Copy, Debug, PartialEq, Eq)]
pub enum Kind {
    Raw,
    Address,
    Addresses,
    Pairs,
    Byte,
    YesNo,
    U16,
    U16s,
    U32,
    I32,
    Text,
    Codes,
    NodeType,
    MessageType,
    ThreeBytes,
    Flag,
}

impl Kind {
    // The number by which the documents, and programs in other languages, know it.
    pub fn number(self) -> u8
        ensures { result ≡ number_of self }
    {
        self as u8
    }

    // The bytes in one element of it.
    #[tactic(auto, unfolding(rfc::specs::Kinds::size_of, rfc::specs::Kinds::sizes))]
    pub fn element_size(self) -> usize
        ensures { result ≡ size_of (number_of self) }
    {
        match self {
            Kind::Flag => 0,
            Kind::Raw | Kind::Byte | Kind::YesNo | Kind::Text => 1,
            Kind::Codes | Kind::NodeType | Kind::MessageType => 1,
            Kind::U16 | Kind::U16s => 2,
            Kind::ThreeBytes => 3,
            Kind::Address | Kind::Addresses | Kind::U32 | Kind::I32 => 4,
            Kind::Pairs => 8,
        }
    }
}

// A number that is no kind.
#[derive(Clone, Copy, Debug, PartialEq, Eq)]
pub struct NoKind(pub u8);

impl TryFrom<u8> for Kind {
    type Error = NoKind;

    ghost try_from_gives = { Numbers };

    fn try_from(number: u8) -> Result<Kind, NoKind> {
        match number {
            0 => Ok(Kind::Raw),
            1 => Ok(Kind::Address),
            2 => Ok(Kind::Addresses),
            3 => Ok(Kind::Pairs),
            4 => Ok(Kind::Byte),
            5 => Ok(Kind::YesNo),
            6 => Ok(Kind::U16),
            7 => Ok(Kind::U16s),
            8 => Ok(Kind::U32),
            9 => Ok(Kind::I32),
            10 => Ok(Kind::Text),
            11 => Ok(Kind::Codes),
            12 => Ok(Kind::NodeType),
            13 => Ok(Kind::MessageType),
            14 => Ok(Kind::ThreeBytes),
            15 => Ok(Kind::Flag),
            _ => Err(NoKind(number)),
        }
    }
}

// The kind of a code, as the function of its section has it. All sections before DHCP's own stand behind one test: DHCP's own codes,
// of which every DHCP message has some, are then two tests away.
pub fn kind_of(code: u8) -> Kind
    ensures { number_of result ≡ kind_of code }
{
    if code <= 49 {
        if code <= 18 {
            return vendor(code);
        }
        if code <= 25 {
            return ip_host(code);
        }
        if code <= 33 {
            return ip_interface(code);
        }
        if code <= 36 {
            return link_layer(code);
        }
        if code <= 39 {
            return tcp(code);
        }
        return services(code);
    }
    if code <= 61 {
        return dhcp(code);
    }
    if code <= 76 {
        return further_services(code);
    }
    if code <= 101 {
        return later(code);
    }
    last(code)
}

// Codes 0 to 18: Pad, and the vendor extensions (RFC 2132, section 3).
fn vendor(code: u8) -> Kind
    requires { code ≤ 18 }
    ensures { number_of result ≡ kind_of code }
{
    if code <= 0 {
        return Kind::Raw; // Pad
    }
    if code <= 1 {
        return Kind::Address; // subnet mask
    }
    if code <= 2 {
        return Kind::I32; // time offset
    }
    if code <= 11 {
        return Kind::Addresses; // routers to resource location servers
    }
    if code <= 12 {
        return Kind::Text; // host name
    }
    if code <= 13 {
        return Kind::U16; // boot file size
    }
    if code <= 15 {
        return Kind::Text; // merit dump file, domain name
    }
    if code <= 16 {
        return Kind::Address; // swap server
    }
    Kind::Text // root path, extensions path
}

// Codes 19 to 25: the IP layer of a host (RFC 2132, section 4).
fn ip_host(code: u8) -> Kind
    requires { (19 ≤ code) × (code ≤ 25) }
    ensures { number_of result ≡ kind_of code }
{
    if code <= 20 {
        return Kind::YesNo; // IP forwarding, non-local source routing
    }
    if code <= 21 {
        return Kind::Pairs; // policy filter
    }
    if code <= 22 {
        return Kind::U16; // maximum datagram reassembly size
    }
    if code <= 23 {
        return Kind::Byte; // default time-to-live
    }
    if code <= 24 {
        return Kind::U32; // path MTU aging timeout
    }
    Kind::U16s // path MTU plateau table
}

// Codes 26 to 33: the IP layer of an interface (RFC 2132, section 5).
fn ip_interface(code: u8) -> Kind
    requires { (26 ≤ code) × (code ≤ 33) }
    ensures { number_of result ≡ kind_of code }
{
    if code <= 26 {
        return Kind::U16; // interface MTU
    }
    if code <= 27 {
        return Kind::YesNo; // all subnets are local
    }
    if code <= 28 {
        return Kind::Address; // broadcast address
    }
    if code <= 31 {
        return Kind::YesNo; // perform mask discovery, mask supplier, perform router discovery
    }
    if code <= 32 {
        return Kind::Address; // router solicitation address
    }
    Kind::Pairs // static routes
}

// Codes 34 to 36: the link layer of an interface (RFC 2132, section 6).
fn link_layer(code: u8) -> Kind
    requires { (34 ≤ code) × (code ≤ 36) }
    ensures { number_of result ≡ kind_of code }
{
    if code <= 34 {
        return Kind::YesNo; // trailer encapsulation
    }
    if code <= 35 {
        return Kind::U32; // ARP cache timeout
    }
    Kind::YesNo // Ethernet encapsulation
}

// Codes 37 to 39: TCP (RFC 2132, section 7).
fn tcp(code: u8) -> Kind
    requires { (37 ≤ code) × (code ≤ 39) }
    ensures { number_of result ≡ kind_of code }
{
    if code <= 37 {
        return Kind::Byte; // default TTL
    }
    if code <= 38 {
        return Kind::U32; // keepalive interval
    }
    Kind::YesNo // keepalive garbage
}

// Codes 40 to 49: applications and services (RFC 2132, sections 8.1 to 8.10).
fn services(code: u8) -> Kind
    requires { (40 ≤ code) × (code ≤ 49) }
    ensures { number_of result ≡ kind_of code }
{
    if code <= 40 {
        return Kind::Text; // NIS domain
    }
    if code <= 42 {
        return Kind::Addresses; // NIS servers, NTP servers
    }
    if code <= 43 {
        return Kind::Raw; // vendor specific information
    }
    if code <= 45 {
        return Kind::Addresses; // NetBIOS name servers, datagram distribution servers
    }
    if code <= 46 {
        return Kind::NodeType; // NetBIOS node type
    }
    if code <= 47 {
        return Kind::Text; // NetBIOS scope
    }
    Kind::Addresses // X Window System font servers, display managers
}

// Codes 50 to 61: DHCP's own (RFC 2132, section 9).
fn dhcp(code: u8) -> Kind
    requires { (50 ≤ code) × (code ≤ 61) }
    ensures { number_of result ≡ kind_of code }
{
    if code <= 50 {
        return Kind::Address; // requested IP address
    }
    if code <= 51 {
        return Kind::U32; // lease time
    }
    if code <= 52 {
        return Kind::Byte; // option overload
    }
    if code <= 53 {
        return Kind::MessageType;
    }
    if code <= 54 {
        return Kind::Address; // server identifier
    }
    if code <= 55 {
        return Kind::Codes; // parameter request list
    }
    if code <= 56 {
        return Kind::Text; // message
    }
    if code <= 57 {
        return Kind::U16; // maximum message size
    }
    if code <= 59 {
        return Kind::U32; // renewal time, rebinding time
    }
    Kind::Raw // vendor class identifier, client-identifier
}

// Codes 62 to 76: further services (RFC 2242, sections 2 and 3; RFC 2132, sections 8.11 to 8.21, 9.4 and 9.5).
fn further_services(code: u8) -> Kind
    requires { (62 ≤ code) × (code ≤ 76) }
    ensures { number_of result ≡ kind_of code }
{
    if code <= 62 {
        return Kind::Text; // NetWare/IP domain
    }
    if code <= 63 {
        return Kind::Raw; // NetWare/IP information
    }
    if code <= 64 {
        return Kind::Text; // NIS+ domain
    }
    if code <= 65 {
        return Kind::Addresses; // NIS+ servers
    }
    if code <= 67 {
        return Kind::Raw; // TFTP server name, bootfile name
    }
    Kind::Addresses // mobile IP home agents to STDA servers
}

// Codes 77 to 101, of later RFCs (4039, 4280, 4388, 4578, 4833). Where no option is named, document 01 lists none.
fn later(code: u8) -> Kind
    requires { (77 ≤ code) × (code ≤ 101) }
    ensures { number_of result ≡ kind_of code }
{
    if code <= 79 {
        return Kind::Raw;
    }
    if code <= 80 {
        return Kind::Flag; // rapid commit
    }
    if code <= 88 {
        return Kind::Raw;
    }
    if code <= 89 {
        return Kind::Addresses; // BCMCS controllers
    }
    if code <= 90 {
        return Kind::Raw;
    }
    if code <= 91 {
        return Kind::U32; // client-last-transaction-time
    }
    if code <= 92 {
        return Kind::Addresses; // associated-ip
    }
    if code <= 93 {
        return Kind::U16; // client system architecture
    }
    if code <= 94 {
        return Kind::ThreeBytes; // client network interface
    }
    if code <= 99 {
        return Kind::Raw;
    }
    Kind::Text // time zone in POSIX's form, time zone by its name
}

// Codes 102 to 254, of later RFCs (8910, 3011, 5859, 6926), and End. RFC 8925 has 108 for IPv6-only preferred; 106 is document 01's.
fn last(code: u8) -> Kind
    requires { 102 ≤ code }
    ensures { number_of result ≡ kind_of code }
{
    if code <= 105 {
        return Kind::Raw;
    }
    if code <= 106 {
        return Kind::U32; // IPv6-only preferred
    }
    if code <= 113 {
        return Kind::Raw;
    }
    if code <= 114 {
        return Kind::Text; // captive portal
    }
    if code <= 117 {
        return Kind::Raw;
    }
    if code <= 118 {
        return Kind::Address; // subnet selection
    }
    if code <= 149 {
        return Kind::Raw;
    }
    if code <= 150 {
        return Kind::Address; // TFTP server address
    }
    if code <= 151 {
        return Kind::Raw;
    }
    if code <= 155 {
        return Kind::U32; // base time, start time of state, query start time, query end time
    }
    Kind::Raw
}

// The bytes in one element of the kind with a number; a number that is no kind has none. It takes any number, for who has one from C; who has
// a kind asks that.
#[tactic(auto, using(rfc::proofs::Codes::size_past))]
pub fn element_size(kind: u8) -> usize
    ensures { result ≡ size_of kind }
{
    match Kind::try_from(kind) {
        Ok(kind) => kind.element_size(),
        Err(_) => 0,
    }
}
