// Lists the message on standard input: its header, its hardware address, its options and the stop of the walk; or, with the word `joined`
// as its argument, its options in RFC 3396's reading. A sentence on standard error says what failed, or what the line of a message that is
// refused or too long means; of a message that is listed nothing is said there.
#![tactic(auto)]

use limits::LEAST_MESSAGE;
use lines::MOST_LISTED;
use refusal::Refusal;
use std::io;
use std::io::Read;
use std::rt::Env;

fn main(rt: HostRuntime) -> io::Result<()> {
    // One byte more than is listed, so that a longer message is told apart.
    let mut message = [0u8; MOST_LISTED + 1];
    match read_message(&mut rt.stdin(), &mut message) {
        Ok(n) => list(&rt, borrowed::part(&message, 0, n), is_joined(&rt)),
        Err(error) => fail(&rt, "it could not be read", error),
    }
}

// Reads until the input ends or the room is full. Answers how many bytes were read.
fn read_message(input: &mut impl Read, room: &mut [u8]) -> io::Result<usize> {
    let mut done: usize = 0;
    while done < room.len() {
        let more = input.read(&mut room[done..])?;
        if more == 0 {
            break;
        }
        done += more;
    }
    Ok(done)
}

// Whether RFC 3396's reading is asked for.
fn is_joined(rt: &impl Env) -> bool {
    let mut word = [0u8; 6];
    match rt.arg(1, &mut word) {
        Ok(len) => borrowed::part(&word, 0, len) == b"joined".as_slice(),
        Err(_) => false,
    }
}

fn list(rt: &(impl Print + Eprint + Alloc), message: &[u8], joined: bool) -> io::Result<()> {
    let mut text = [0u8; 65535];
    match write(&mut text, message, joined) {
        Ok(len) => tell(rt, borrowed::part(&text, 0, len), message, joined),
        // This room takes every listing (`Room.ListingFits` and `Room.JoinedFits` of `calls`); a smaller one would be told here.
        Err(refusal) => {
            let number = refusal.number();
            eprintln!(rt; "the listing is refused {number}")
        }
    }
}

fn write(text: &mut [u8], message: &[u8], joined: bool) -> Result<usize, Refusal> {
    if joined {
        return joined_lines::write_joined(text, 0, message);
    }
    lines::write_listing(text, 0, message)
}

// Writes the listing of a message, and says what its line means where the message is refused or too long.
fn tell(
    rt: &(impl Print + Eprint + Alloc),
    text: &[u8],
    message: &[u8],
    joined: bool,
) -> io::Result<()> {
    let size = message.len();
    if let Err(error) = rt.write_all(text) {
        fail(rt, "the listing could not be written", error)
    } else if size < LEAST_MESSAGE {
        say_short(rt, size)
    } else if size > MOST_LISTED {
        eprintln!(rt;
            "too long: it has more than {MOST_LISTED} bytes, and no longer message is listed"
        )
    } else if joined {
        say_refused(rt, message)
    } else {
        Ok(())
    }
}

fn say_short(rt: &impl Eprint, size: usize) -> io::Result<()> {
    eprint!(rt;
        "refused 1: it has {size} of the {LEAST_MESSAGE} bytes that a DHCP message has at least: it is "
    )?;
    if size == 0 {
        eprintln!(rt; "empty")
    } else {
        eprintln!(rt; "cut, or no DHCP message")
    }
}

// Says what RFC 3396's reading refuses, where it does.
fn say_refused(rt: &impl Eprint, message: &[u8]) -> io::Result<()> {
    match aggregate::fields::overload(message) {
        Ok(_) => Ok(()),
        Err(Refusal::FieldCut) => eprintln!(rt; "refused 15: a field that holds options is cut"),
        Err(_) => eprintln!(rt;
            "refused 16: option 52 does not say which fields hold options: it is more than one part, or not one byte of 1 to 3"
        ),
    }
}

// Says what failed, and why in the system's words. `io::Error` puts the error's number behind them, which is left out.
fn fail(rt: &(impl Eprint + Alloc), what: &str, error: io::Error) -> io::Result<()> {
    let all = format!(in rt.alloc(); "{error}")?;
    match all.as_str().split_once(" (os error ") {
        Some((why, _)) => eprintln!(rt; "{what}: {why}"),
        None => eprintln!(rt; "{what}: {all}"),
    }
}
