// What came of the records, counted and said.
use std::io;

// The sorts of records.
#[derive(Clone, Copy, Debug, PartialEq, Eq)]
pub enum Sort {
    Area,
    Reading,
    Write,
}

impl TryFrom<u8> for Sort {
    type Error = Ending;

    fn try_from(kind: u8) -> Result<Sort, Ending> {
        match kind {
            1 => Ok(Sort::Area),
            2 => Ok(Sort::Reading),
            3 => Ok(Sort::Write),
            _ => Err(Ending::Unknown),
        }
    }
}

// Why a replay ended.
#[derive(Clone, Copy, Debug, PartialEq, Eq)]
pub enum Ending {
    AtEnd,
    // A record is not all there.
    Cut,
    // A record of no kind that is known.
    Unknown,
    // An input or an answer has more bytes than this program holds.
    TooLong,
}

// What came of the records so far.
#[derive(Clone, Copy, Debug, PartialEq, Eq)]
pub struct Tally {
    areas: u64,
    readings: u64,
    writes: u64,
    wrong: u64,
    // The number of the first wrong record, from 1 on.
    first: Option<u64>,
}

impl Tally {
    pub(crate) fn new() -> Tally {
        Tally {
            areas: 0,
            readings: 0,
            writes: 0,
            wrong: 0,
            first: None,
        }
    }

    // One more record of a sort, right or wrong.
    pub(crate) fn count(&mut self, sort: Sort, right: bool) {
        match sort {
            Sort::Area => self.areas = self.areas.wrapping_add(1),
            Sort::Reading => self.readings = self.readings.wrapping_add(1),
            Sort::Write => self.writes = self.writes.wrapping_add(1),
        }
        if !right {
            self.first = self.first.or(Some(self.total()));
            self.wrong = self.wrong.wrapping_add(1);
        }
    }

    fn total(&self) -> u64 {
        self.areas
            .wrapping_add(self.readings)
            .wrapping_add(self.writes)
    }
}

// Says all. The last line is the verdict, and says how many are wrong only where the file was replayed to its end.
pub(crate) fn say(rt: &impl Print, tally: Tally, ending: Ending) -> io::Result<()> {
    let Tally {
        areas,
        readings,
        writes,
        wrong,
        first,
    } = tally;
    println!(rt; "{areas} areas")?;
    println!(rt; "{readings} readings")?;
    println!(rt; "{writes} writes")?;
    if let Some(record) = first {
        println!(rt; "record {record} is the first that is wrong")?;
    }
    let total = tally.total();
    let last = total.wrapping_add(1);
    match ending {
        // A file without a record proves nothing.
        Ending::AtEnd if total == 0 => println!(rt; "the file has no record"),
        Ending::AtEnd => println!(rt; "{total} answers, {wrong} wrong"),
        Ending::Cut => println!(rt; "record {last} is cut short"),
        Ending::Unknown => println!(rt; "record {last} is of no known kind"),
        Ending::TooLong => println!(rt; "record {last} is longer than can be replayed"),
    }
}
