// Replays the crate's recorded answers, from the file that the first argument names, against the library: the walk over areas, the plain
// reading of values and the writing of options. Says how many answers there were and how many came out otherwise.
//
// A record is one byte of kind (1 an area, 2 a reading, 3 a write), the input's length (2 bytes, the highest first), the input, the
// answer's length (2 bytes) and the answer. docs/RECORDED.md has what input and answer are.
#![tactic(auto)]

mod areas;
mod pages;
mod readings;
mod report;
mod writes;

use report::{Ending, Sort, Tally};
use std::fs::File;
use std::io;
use std::io::Read;
use std::rt::Env;

fn main(rt: HostRuntime) -> io::Result<()> {
    let mut path = [0u8; 4096];
    let Ok(length) = rt.arg(1, &mut path) else {
        return println!(rt; "no file of answers is named");
    };
    let Some(mut file) = open(&rt, &path[..length]) else {
        return println!(rt; "the file of answers cannot be opened");
    };
    let mut tally = Tally::new();
    let ending = replay_all(&mut file, &mut tally);
    drop(file);
    report::say(&rt, tally, ending)
}

// The file of a name, where it can be opened.
fn open(rt: &HostRuntime, name: &[u8]) -> Option<File> {
    let path = std::str::from_utf8(name).ok()?;
    File::open(rt, path).ok()
}

// Replays the records, one after the other, and says why no other follows.
fn replay_all(file: &mut impl Read, tally: &mut Tally) -> Ending {
    for _ in 0..u64::MAX {
        match replay_one(file) {
            Ok((sort, right)) => tally.count(sort, right),
            Err(ending) => return ending,
        }
    }
    Ending::AtEnd
}

// Reads one record and replays it: its sort, and whether the answer is right.
fn replay_one(file: &mut impl Read) -> Result<(Sort, bool), Ending> {
    let mut head = [0u8; 1];
    if file.read_exact(&mut head).is_err() {
        return Err(Ending::AtEnd);
    }
    let mut input = [0u8; 8192];
    let size = read_counted(file, &mut input)?;
    let mut answer = [0u8; 8192];
    let length = read_counted(file, &mut answer)?;
    let sort = Sort::try_from(head[0])?;
    let right = replay(
        sort,
        borrowed::part(&input, 0, size),
        borrowed::part(&answer, 0, length),
    );
    Ok((sort, right))
}

// Reads a length and so many bytes, to the start of `room`.
fn read_counted(file: &mut impl Read, room: &mut [u8]) -> Result<usize, Ending> {
    let mut length = [0u8; 2];
    if file.read_exact(&mut length).is_err() {
        return Err(Ending::Cut);
    }
    let size = usize::from(decoder::be_u16(length[0], length[1]));
    if size > room.len() {
        return Err(Ending::TooLong);
    }
    if file.read_exact(&mut room[..size]).is_err() {
        return Err(Ending::Cut);
    }
    Ok(size)
}

fn replay(sort: Sort, input: &[u8], answer: &[u8]) -> bool {
    match sort {
        Sort::Area => areas::right(input, answer),
        Sort::Reading => readings::right(input, answer),
        Sort::Write => writes::right(input, answer),
    }
}
