// The fixed header of a message (RFC 2131, section 2), as the crate's `Message` reads it: each field of a message of any length, or why it
// is refused.
#![tactic(auto)]

ghost use Rattle.std.specs.Prelude.{◌≡◌, ◌≤◌, length, not, MatchResult};
ghost use Rattle.facts.specs.BigEndian.{number};
ghost use Rattle.rfc.specs.Numbers.{given, least_message, most_bytes};
ghost use Rattle.rfc.specs.Header as rfc;
ghost use Rattle.refusal.specs.Told.{told};
ghost use Rattle.header.specs.Header.{says_part, says_address, says_area, area_of, all_of, none_of, Stopped, Sized, Inside};

use limits::{LEAST_MESSAGE, MOST_BYTES};
use refusal::Refusal;

// Where bytes of the message stand, for `part` to show.
#[derive(Clone, Copy, Debug, PartialEq, Eq)]
pub struct Span {
    pub start: usize,
    pub len: usize,
}

// Where the hardware address stands, `len` bytes, for `part` to show: `own` of them lie in chaddr's field, and `spills` says that hlen is
// above the 16 that it has, so that the others are bytes of what stands behind it.
#[derive(Clone, Copy, Debug, PartialEq, Eq)]
pub struct Chaddr {
    pub start: usize,
    pub len: usize,
    pub own: usize,
    pub spills: bool,
}

// All fields at once, for callers in other languages too: the C interface needs numbers for refusals. `refused` is the number of a refusal,
// 0 for none; where one is given, everything else is 0 or false.
#[repr(C)]
#[derive(Default, Drop)]
pub struct Fields {
    pub xid: u32,
    pub ciaddr: u32,
    pub yiaddr: u32,
    pub siaddr: u32,
    pub giaddr: u32,
    pub secs: u16,
    pub flags: u16,
    // How many bytes sname and file have before their first zero.
    pub sname: u16,
    pub file: u16,
    // How many of chaddr's hlen bytes lie in its field; 0 where chaddr is refused.
    pub chaddr_own: u16,
    pub refused: u8,
    pub op: u8,
    pub htype: u8,
    pub hlen: u8,
    pub hops: u8,
    // 3 where chaddr's hlen bytes are not all there, else 0.
    pub chaddr_refused: u8,
    // Whether hlen is above the 16 bytes of chaddr's field; not where chaddr is refused.
    pub chaddr_spills: bool,
    pub wrong_magic: bool,
}

// Figure 1: where each field begins and how many bytes it has, and a reader for each. Other crates cite these numbers one by one, and call
// the readers by their names; where a field begins and its size stand together in one reader alone.
#[derive(Drop)]
pub struct Header {}

impl Header {
    pub const OP: usize = 0;

    pub const OP_SIZE: usize = 1;

    pub const HTYPE: usize = 1;

    pub const HTYPE_SIZE: usize = 1;

    pub const HLEN: usize = 2;

    pub const HLEN_SIZE: usize = 1;

    pub const HOPS: usize = 3;

    pub const HOPS_SIZE: usize = 1;

    pub const XID: usize = 4;

    pub const XID_SIZE: usize = 4;

    pub const SECS: usize = 8;

    pub const SECS_SIZE: usize = 2;

    pub const FLAGS: usize = 10;

    pub const FLAGS_SIZE: usize = 2;

    pub const CIADDR: usize = 12;

    pub const CIADDR_SIZE: usize = 4;

    pub const YIADDR: usize = 16;

    pub const YIADDR_SIZE: usize = 4;

    pub const SIADDR: usize = 20;

    pub const SIADDR_SIZE: usize = 4;

    pub const GIADDR: usize = 24;

    pub const GIADDR_SIZE: usize = 4;

    pub const CHADDR: usize = 28;

    pub const CHADDR_SIZE: usize = 16;

    // 44, behind chaddr's field, whatever hlen says.
    pub const SNAME: usize = Header::CHADDR + Header::CHADDR_SIZE;

    pub const SNAME_SIZE: usize = 64;

    pub const FILE: usize = 108;

    pub const FILE_SIZE: usize = 128;

    pub const MAGIC: usize = 236;

    pub const MAGIC_SIZE: usize = 4;

    // 240, behind the magic.
    pub const OPTIONS: usize = Header::MAGIC + Header::MAGIC_SIZE;

    pub fn op(message: &[u8]) -> Result<usize, Refusal>
        ensures { told result ≡ rfc.field rfc.op message.now }
    {
        field(message, Header::OP, Header::OP_SIZE)
    }

    pub fn htype(message: &[u8]) -> Result<usize, Refusal>
        ensures { told result ≡ rfc.field rfc.htype message.now }
    {
        field(message, Header::HTYPE, Header::HTYPE_SIZE)
    }

    pub fn hlen(message: &[u8]) -> Result<usize, Refusal>
        ensures { told result ≡ rfc.field rfc.hlen message.now }
    {
        field(message, Header::HLEN, Header::HLEN_SIZE)
    }

    pub fn hops(message: &[u8]) -> Result<usize, Refusal>
        ensures { told result ≡ rfc.field rfc.hops message.now }
    {
        field(message, Header::HOPS, Header::HOPS_SIZE)
    }

    pub fn xid(message: &[u8]) -> Result<usize, Refusal>
        ensures { told result ≡ rfc.field rfc.xid message.now }
    {
        field(message, Header::XID, Header::XID_SIZE)
    }

    pub fn secs(message: &[u8]) -> Result<usize, Refusal>
        ensures { told result ≡ rfc.field rfc.secs message.now }
    {
        field(message, Header::SECS, Header::SECS_SIZE)
    }

    pub fn flags(message: &[u8]) -> Result<usize, Refusal>
        ensures { told result ≡ rfc.field rfc.flags message.now }
    {
        field(message, Header::FLAGS, Header::FLAGS_SIZE)
    }

    pub fn ciaddr(message: &[u8]) -> Result<usize, Refusal>
        ensures { told result ≡ rfc.field rfc.ciaddr message.now }
    {
        field(message, Header::CIADDR, Header::CIADDR_SIZE)
    }

    pub fn yiaddr(message: &[u8]) -> Result<usize, Refusal>
        ensures { told result ≡ rfc.field rfc.yiaddr message.now }
    {
        field(message, Header::YIADDR, Header::YIADDR_SIZE)
    }

    pub fn siaddr(message: &[u8]) -> Result<usize, Refusal>
        ensures { told result ≡ rfc.field rfc.siaddr message.now }
    {
        field(message, Header::SIADDR, Header::SIADDR_SIZE)
    }

    pub fn giaddr(message: &[u8]) -> Result<usize, Refusal>
        ensures { told result ≡ rfc.field rfc.giaddr message.now }
    {
        field(message, Header::GIADDR, Header::GIADDR_SIZE)
    }

    // The hlen bytes from chaddr on, running into what stands behind its field where hlen is above 16.
    pub fn chaddr(message: &[u8]) -> Result<Chaddr, Refusal>
        ensures { says_address result ≡ rfc.chaddr message.now }
    {
        Message::read(message)?.chaddr()
    }

    pub fn sname(message: &[u8]) -> Result<Span, Refusal>
        ensures { says_part result ≡ rfc.sname message.now }
    {
        text_field(message, Header::SNAME, Header::SNAME_SIZE)
    }

    pub fn file(message: &[u8]) -> Result<Span, Refusal>
        ensures { says_part result ≡ rfc.file message.now }
    {
        text_field(message, Header::FILE, Header::FILE_SIZE)
    }

    // The options: all that stands behind the magic. A message with another magic has none.
    pub fn area(message: &[u8]) -> Result<Option<Span>, Refusal>
        ensures { says_area result ≡ rfc.area message.now }
    {
        Ok(Message::read(message)?.area())
    }

    // All of them at once; where the magic is right, the area is what stands from OPTIONS on.
    pub fn all(message: &[u8]) -> Fields
        ensures { result ≡ all_of message.now }
    {
        match Message::read(message) {
            Ok(whole) => whole.all(),
            Err(refusal) => refused_all(refusal.number()),
        }
    }
}

// A message that is read: it has the whole header, and no more bytes than a message may have.
#[derive(Clone, Copy)]
struct Message<'a> {
    bytes: &'a [u8],
    ghost least: { least_message ≤ length bytes.now },
    ghost most: { length bytes.now ≤ most_bytes },
}

impl<'a> Message<'a> {
    // These bytes, or why no message is read of them.
    #[tactic(auto, using(crate::proofs::Readers::long_stops, crate::proofs::Readers::short_stops))]
    fn read(bytes: &'a [u8]) -> Result<Message<'a>, Refusal>
        ensures { MatchResult result (λ whole. whole.bytes.now ≡ bytes.now)
            (λ refusal. Stopped bytes.now refusal) }
    {
        if bytes.len() > MOST_BYTES {
            return Err(Refusal::TooLong);
        }
        if bytes.len() < LEAST_MESSAGE {
            return Err(Refusal::MessageTooShort);
        }
        Ok(Message { bytes })
    }

    // The `size` bytes from `start` on as a number, out of those that every message has: the compiler knows how many these are.
    fn number(self, start: usize, size: usize) -> usize
        requires { Sized start size }
        ensures { result ≡ number (rfc.bytes_of (rfc.part start size) self.entry.bytes.now) }
    {
        if size == 1 {
            return self.bytes[start] as usize;
        }
        let head = &self.bytes[0..LEAST_MESSAGE];
        if size == 2 {
            return decoder::u16_at(head, start) as usize;
        }
        decoder::u32_at(head, start) as usize
    }

    // How many bytes the text of the field of `size` bytes from `start` on has.
    fn text_len(self, start: usize, size: usize) -> u16
        requires { Inside start size }
        ensures { result ≡ rfc.until_zero (rfc.bytes_of (rfc.part start size) self.entry.bytes.now) }
    {
        until_zero(&self.bytes[start..start + size]) as u16
    }

    // What chaddr shows, or that it is cut.
    fn chaddr(self) -> Result<Chaddr, Refusal>
        ensures { says_address result ≡ rfc.chaddr self.entry.bytes.now }
    {
        let len = self.bytes[Header::HLEN] as usize;
        let end = Header::CHADDR + len;
        if self.bytes.len() < end {
            return Err(Refusal::ChaddrPastEnd);
        }
        Ok(Chaddr {
            start: Header::CHADDR,
            len,
            own: len.min(Header::CHADDR_SIZE),
            spills: len > Header::CHADDR_SIZE,
        })
    }

    // Where the options stand, if the magic is right.
    fn area(self) -> Option<Span>
        ensures { given (area_of result) ≡ rfc.area self.entry.bytes.now }
    {
        if self.wrong_magic() {
            return None;
        }
        Some(Span {
            start: Header::OPTIONS,
            len: self.bytes.len() - Header::OPTIONS,
        })
    }

    // Whether the magic is another.
    fn wrong_magic(self) -> bool
        ensures { result ≡ not (rfc.magic_right self.entry.bytes.now) }
    {
        let head = &self.bytes[0..LEAST_MESSAGE];
        decoder::u32_at(head, Header::MAGIC) != decoder::be_u32(99, 130, 83, 99)
    }

    // All fields. The texts come first: the other reads then stand together, with no loop between them.
    fn all(self) -> Fields
        ensures { result ≡ all_of self.entry.bytes.now }
    {
        let head = &self.bytes[0..LEAST_MESSAGE];
        let sname = self.text_len(Header::SNAME, Header::SNAME_SIZE);
        let file = self.text_len(Header::FILE, Header::FILE_SIZE);
        let (chaddr_refused, chaddr_own, chaddr_spills) = match self.chaddr() {
            Ok(chaddr) => (0, chaddr.own as u16, chaddr.spills),
            Err(refusal) => (refusal.number(), 0, false),
        };
        Fields {
            sname,
            file,
            chaddr_own,
            xid: decoder::u32_at(head, Header::XID),
            ciaddr: decoder::u32_at(head, Header::CIADDR),
            yiaddr: decoder::u32_at(head, Header::YIADDR),
            siaddr: decoder::u32_at(head, Header::SIADDR),
            giaddr: decoder::u32_at(head, Header::GIADDR),
            secs: decoder::u16_at(head, Header::SECS),
            flags: decoder::u16_at(head, Header::FLAGS),
            refused: 0,
            op: self.bytes[Header::OP],
            htype: self.bytes[Header::HTYPE],
            hlen: self.bytes[Header::HLEN],
            hops: self.bytes[Header::HOPS],
            chaddr_refused,
            chaddr_spills,
            wrong_magic: self.wrong_magic(),
        }
    }
}

// The field of `size` bytes from `start` on as a number.
fn field(message: &[u8], start: usize, size: usize) -> Result<usize, Refusal>
    requires { Sized start size }
    ensures { told result ≡ rfc.field (rfc.part start size) message.now }
{
    Ok(Message::read(message)?.number(start, size))
}

// Where the text of the field of `size` bytes from `start` on stands.
fn text_field(message: &[u8], start: usize, size: usize) -> Result<Span, Refusal>
    requires { Inside start size }
    ensures { says_part result ≡ rfc.text_field (rfc.part start size) message.now }
{
    let len = Message::read(message)?.text_len(start, size) as usize;
    Ok(Span { start, len })
}

// How many bytes stand before the first zero, or all.
fn until_zero(bytes: &[u8]) -> usize
    ensures { result ≡ rfc.until_zero bytes.now }
{
    bytes.iter().position(|b| *b == 0).unwrap_or(bytes.len())
}

// The fields of a message that this number refuses.
fn refused_all(number: u8) -> Fields
    ensures { result ≡ none_of number }
{
    Fields {
        refused: number,
        ..Fields::default()
    }
}
