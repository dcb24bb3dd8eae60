// Options written in one call from lent rows, all of them or none: one pass over the rows judges them, and a second one writes them.
ghost use Rattle.std.specs.Prelude.{◌≡◌, ◌+◌, ◌*◌, ◌≤◌, length, Ok};
ghost use Rattle.rfc.specs.Writing.{answer_to};
ghost use Rattle.refusal.specs.Told.{told};
ghost use Rattle.encoder.specs.Written.{Wrote};
ghost use Rattle.options.specs.Rows.{row_at, write_of, rows_from, answer_of, room_of, rows_told, WroteRows, InRoom, Fitting, Passes, AllPass};

use limits::{MOST_BYTES, MOST_PART, MOST_VALUE};
use refusal::Refusal;

// All rows are written: how many they are, and the place behind them.
#[derive(Clone, Copy, Debug, PartialEq, Eq)]
pub struct RowsWritten {
    pub rows: usize,
    pub place: usize,
}

// The first row that is refused, by its index, and why. Nothing is written.
#[derive(Clone, Copy, Debug, PartialEq, Eq)]
pub struct RowRefused {
    pub row: usize,
    pub refusal: Refusal,
}

// A row: the code, and where the value begins in the lent values and how long it is.
#[derive(Clone, Copy)]
struct Row {
    code: usize,
    start: usize,
    len: usize,
}

// Writes an option for each row at `place`, one behind the other, as byte values. A row has three numbers: the code, and where the
// value begins in `values` and how long it is. A room that is too long and a place past its end are told of row 0.
pub fn write_rows(
    room: &mut [u8],
    place: usize,
    rows: &[usize],
    values: &[u8],
) -> Result<RowsWritten, RowRefused>
    ensures { WroteRows rows.now values.now room.old room.new place result }
{
    if room.len() > MOST_BYTES {
        return Err(RowRefused {
            row: 0,
            refusal: Refusal::TooLong,
        });
    }
    if place > room.len() {
        return Err(RowRefused {
            row: 0,
            refusal: Refusal::PastEnd,
        });
    }
    let written = judge(room, place, rows, values)?;
    put_rows(room, place, rows, values);
    Ok(written)
}

// What is answered of the rows, judged one behind the other as if each were written.
fn judge(
    room: &[u8],
    place: usize,
    rows: &[usize],
    values: &[u8],
) -> Result<RowsWritten, RowRefused>
    requires { InRoom room.now place }
    ensures { rows_told result ≡ answer_of (rows_from 0 rows.now values.now room.now place) }
{
    let count = rows.len() / 3;
    let mut at = place;
    for row in 0..count {
        let to = judge_row(room, at, row_at(rows, row), values);
        at = to.map_err(move |refusal| RowRefused { row, refusal })?;
    }
    Ok(RowsWritten {
        rows: count,
        place: at,
    })
}

// The row of an index.
fn row_at(rows: &[usize], index: usize) -> Row
    requires { 3 * index + 3 ≤ length rows.now }
    ensures { result ≡ row_at rows.now index }
{
    Row {
        code: rows[3 * index],
        start: rows[3 * index + 1],
        len: rows[3 * index + 2],
    }
}

// What a write of one row at `at` would answer.
fn judge_row(room: &[u8], at: usize, row: Row, values: &[u8]) -> Result<usize, Refusal>
    requires { InRoom room.now at }
    ensures { told result ≡ answer_to (write_of row values.now) room.now at }
{
    if row.start > values.len() || row.len > values.len() - row.start {
        return Err(Refusal::PastEnd);
    }
    if row.code == 0 || row.code > 254 {
        return Err(Refusal::NoSuchCode);
    }
    if row.len > MOST_PART {
        if row.len > MOST_VALUE {
            return Err(Refusal::ValueTooLong);
        }
        let size = parts::size_in_parts(row.len as u16, MOST_PART as u16);
        return fitting(room, at + size);
    }
    if row.len == 0 {
        return Ok(at);
    }
    fitting(room, at + row.len + 2)
}

// What a write answers that would end at `to`, and that only the room's end can refuse.
fn fitting(room: &[u8], to: usize) -> Result<usize, Refusal>
    ensures { Fitting room.now to result }
{
    if to > room.len() {
        return Err(Refusal::NoRoom);
    }
    Ok(to)
}

// Writes the rows, none of which is refused.
fn put_rows(room: &mut [u8], place: usize, rows: &[usize], values: &[u8])
    requires { AllPass rows.now values.now room.old place }
    ensures { room.new
        ≡ room_of (rows_from 0 rows.now values.now room.old place) room.old }
{
    let mut at = place;
    for row in 0..rows.len() / 3 {
        at = put_row(room, at, row_at(rows, row), values);
    }
}

// Writes one row at `at` that is not refused, and answers the place behind it.
fn put_row(room: &mut [u8], at: usize, row: Row, values: &[u8]) -> usize
    requires { Passes row values.now room.old at }
    ensures { Wrote (write_of row values.now) room.old room.new at (Ok result) }
{
    if row.len == 0 {
        return at;
    }
    let value = &values[row.start..row.start + row.len];
    if row.len > MOST_PART {
        crate::put_parts(room, at, row.code as u8, value);
        return at + parts::size_in_parts(row.len as u16, MOST_PART as u16);
    }
    crate::put_part(room, at, row.code as u8, value);
    at + row.len + 2
}
