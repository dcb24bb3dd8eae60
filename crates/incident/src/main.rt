// The message of the incident as the library reads it: 244 bytes whose hlen says 255, and the same with 39 bytes more.
#![tactic(auto)]

use borrowed::answer::Stop;
use header::{Chaddr, Header, Span};
use refusal::Refusal;
use std::io;
use values::answer::Value;
use whole::Whole;

fn main(rt: HostRuntime) -> io::Result<()> {
    let message = message();
    tell(&rt, borrowed::part(&message, 0, 244))?;
    tell(&rt, &message)
}

// A reply with zeros up to the magic, and behind it `53 1 5 255`.
fn message() -> [u8; 283] {
    let mut message = [7; 283];
    message[..Header::MAGIC].fill(0);
    message[Header::OP..Header::HOPS].copy_from_slice(&[2, 1, 255]);
    message[Header::MAGIC..Header::OPTIONS].copy_from_slice(&[99, 130, 83, 99]);
    message[Header::OPTIONS..Header::OPTIONS + 4].copy_from_slice(&[53, 1, 5, 255]);
    message
}

fn tell(rt: &impl Print, message: &[u8]) -> io::Result<()> {
    let size = message.len();
    println!(rt; "message {size}")?;
    tell_fields(rt, message)?;
    say_chaddr(rt, message, Header::chaddr(message))?;
    say_text(rt, "sname", message, Header::sname(message))?;
    say_text(rt, "file", message, Header::file(message))?;
    tell_area(rt, message, Header::area(message))
}

fn tell_fields(rt: &impl Print, message: &[u8]) -> io::Result<()> {
    say_field(rt, "op", Header::op(message))?;
    say_field(rt, "htype", Header::htype(message))?;
    say_field(rt, "hlen", Header::hlen(message))?;
    say_field(rt, "hops", Header::hops(message))?;
    say_field(rt, "xid", Header::xid(message))?;
    say_field(rt, "secs", Header::secs(message))?;
    say_field(rt, "flags", Header::flags(message))?;
    say_field(rt, "ciaddr", Header::ciaddr(message))?;
    say_field(rt, "yiaddr", Header::yiaddr(message))?;
    say_field(rt, "siaddr", Header::siaddr(message))?;
    say_field(rt, "giaddr", Header::giaddr(message))
}

fn say_field(rt: &impl Print, name: &str, field: Result<usize, Refusal>) -> io::Result<()> {
    match field {
        Ok(n) => println!(rt; "{name} {n}"),
        Err(refusal) => say_refused(rt, name, refusal),
    }
}

// Where the hardware address stands, how many bytes of it are shown, and how many of these lie in its field.
fn say_chaddr(rt: &impl Print, message: &[u8], chaddr: Result<Chaddr, Refusal>) -> io::Result<()> {
    match chaddr {
        Ok(
            Chaddr {
                start,
                len,
                own,
                spills,
            },
        ) => {
            let shown = borrowed::part(message, start, len).len();
            print!(rt; "chaddr from {start} bytes {shown}, {own} in the field")?;
            if spills {
                print!(rt; ", spills")?;
            }
            println!(rt)
        }
        Err(refusal) => say_refused(rt, "chaddr", refusal),
    }
}

// Where a text stands, and how many of its bytes are shown.
fn say_text(
    rt: &impl Print,
    name: &str,
    message: &[u8],
    text: Result<Span, Refusal>,
) -> io::Result<()> {
    match text {
        Ok(Span { start, len }) => {
            let shown = borrowed::part(message, start, len).len();
            println!(rt; "{name} from {start} bytes {shown}")
        }
        Err(refusal) => say_refused(rt, name, refusal),
    }
}

fn tell_area(
    rt: &impl Print,
    message: &[u8],
    area: Result<Option<Span>, Refusal>,
) -> io::Result<()> {
    match area {
        Ok(Some(Span { start, len })) => tell_options(rt, borrowed::part(message, start, len)),
        Ok(None) => println!(rt; "magic wrong"),
        Err(refusal) => say_refused(rt, "area", refusal),
    }
}

// The first two answers of the walk.
fn tell_options(rt: &impl Print, area: &[u8]) -> io::Result<()> {
    let mut join = [0u8; 4096];
    let first = lent::next_from(area, 0, &mut join);
    say_whole(rt, whole::read_option(first, area, &join, true))?;
    let next = lent::next_from(area, borrowed::place_after(first, 0), &mut join);
    say_whole(rt, whole::read_option(next, area, &join, true))
}

fn say_whole(rt: &impl Print, answer: Result<Whole, Refusal>) -> io::Result<()> {
    match answer {
        Ok(Whole::Valued { code, value, place }) => say_value(rt, code, value, place),
        Ok(Whole::Stopped(stop, at)) => say_stop(rt, stop, at),
        Err(Refusal::JoinTooShort(len)) => println!(rt; " refused 5 needs {len}"),
        Err(refusal) => say_refused(rt, "", refusal),
    }
}

fn say_value(rt: &impl Print, code: u8, value: Value, place: usize) -> io::Result<()> {
    match value {
        Value::MessageType(n) => println!(rt; "option {code} message type {n} place {place}"),
        _ => println!(rt; "option {code} no message type place {place}"),
    }
}

fn say_stop(rt: &impl Print, stop: Stop, at: usize) -> io::Result<()> {
    match stop {
        Stop::End => println!(rt; "stop end {at}"),
        _ => println!(rt; "another stop {at}"),
    }
}

fn say_refused(rt: &impl Print, name: &str, refusal: Refusal) -> io::Result<()> {
    let number = refusal.number();
    println!(rt; "{name} refused {number}")
}
