// The boundary to programs in Rust and in C, for RFC 3396's reading of a whole message in one call, as rows of numbers. The parts are gone
// over once: a mark for each code says which row is its own.
#![tactic(auto)]

ghost use Rattle.std.specs.Prelude.{◌≡◌, ◌≤◌, ◌+◌, length, drop, get_or};
ghost use Rattle.facts.specs.Over.{over};
ghost use Rattle.rfc.specs.Portions.{portions, parts_in};
ghost use Rattle.aggregate.specs.Spanned.{Open};
ghost use Rattle.sindovaleph_entries.specs.Rows.{ListsEntries};
ghost use Rattle.sindovaleph_entries.specs.Filling.{sheet, first_row, puts, fills, Puts, Fills, FillsAll, extended, Extends};

use aggregate::fields;
use header::Header;
use portions::{Portion, Portions};

// What a listing of codes answers: how many codes the message has; as many rows are filled as there are, or as there is room for.
// `refused` is the number of a refusal, 0 for none, as C needs it: it fills no row.
#[repr(C)]
#[derive(Drop)]
pub struct Entries {
    pub refused: u8,
    pub codes: usize,
}

// Lists the options of the message in the order in which codes first appear, four numbers a row: the code, the parts, the length of the
// value and the place behind the last part, as `Step` has them. Nothing is joined.
pub fn sindovaleph_entries(message: &[u8], rows: &mut [usize]) -> Entries
    ensures { ListsEntries message.now rows.old rows.new result }
{
    match fields::overload(message) {
        Ok(named) => Entries {
            refused: 0,
            codes: fill_all(message, named, rows),
        },
        Err(refusal) => Entries {
            refused: refusal.number(),
            codes: 0,
        },
    }
}

// Fills a row for each code of all fields; answers how many codes there are.
fn fill_all(message: &[u8], named: usize, rows: &mut [usize]) -> usize
    requires { Open message.now named }
    ensures { FillsAll message.now rows.old rows.new result }
{
    let at = fields::spans_of(message, named);
    let mut marks = [0u8; 256];
    let options = fill(message, at.options, &mut marks, rows, 0);
    let file = fill(&message[..at.file], Header::FILE, &mut marks, rows, options);
    fill(&message[..at.sname], Header::SNAME, &mut marks, rows, file)
}

// Puts the parts of the field that begins at `start` into their rows, behind `before` codes; answers how many codes there are then. Their
// number is no field beside the marks: it goes in and out by value, and stays in a register.
fn fill(bytes: &[u8], start: usize, marks: &mut [u8], rows: &mut [usize], before: usize) -> usize
    requires { Fills bytes.now start (sheet marks.old rows.old before) }
    ensures { sheet marks.new rows.new result
        ≡ fills (sheet marks.old rows.old before) (parts_in (portions start (drop start bytes.now))) }
{
    let mut codes = before;
    for part in (Portions { bytes, at: start }) {
        codes = put_part(marks, rows, codes, part.unwrap());
    }
    codes
}

// Puts a part into the row of its code: a new row where it is the first, behind `codes` others, and else the row that its mark says. A code
// whose row there is no room for is counted all the same. A mark is a byte, 0 for none and else 1 more than the index of the row: an option
// of a byte would take two, and all marks are cleared at each call.
fn put_part(marks: &mut [u8], rows: &mut [usize], codes: usize, part: Portion) -> usize
    requires { Puts (sheet marks.old rows.old codes) part.code part.len }
    ensures { sheet marks.new rows.new result
        ≡ puts (sheet marks.old rows.old codes) part.code part.len part.place }
{
    let mark = marks[part.code as usize] as usize;
    if mark > 0 {
        if mark <= rows.len() / 4 {
            extend_row(rows, 4 * (mark - 1), part.len, part.place);
        }
        return codes;
    }
    marks[part.code as usize] = (codes + 1) as u8;
    if codes < rows.len() / 4 {
        put_row(rows, 4 * codes, part);
    }
    codes + 1
}

// Puts the row of a code's first part at `row`: stores one by one, since a slice copied from an array goes through memory.
fn put_row(rows: &mut [usize], row: usize, part: Portion)
    requires { row + 4 ≤ length rows.old }
    ensures { rows.new ≡ over rows.old row (first_row part.code part.len part.place) }
{
    rows[row] = part.code as usize;
    rows[row + 1] = 1;
    rows[row + 2] = part.len;
    rows[row + 3] = part.place;
}

// A further part in the row at `row`. One with no byte is passed by a branch of its own: there may be tens of thousands of them.
fn extend_row(rows: &mut [usize], row: usize, len: usize, place: usize)
    requires { Extends rows.old row len }
    ensures { rows.new ≡ extended rows.old row (get_or rows.old row 0) len place }
{
    rows[row + 1] += 1;
    rows[row + 3] = place;
    if len > 0 {
        rows[row + 2] += len;
    }
}
