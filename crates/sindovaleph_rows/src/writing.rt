// Options written in one call from lent rows, all of them or none.
ghost use Rattle.sindovaleph_rows.specs.Writing.{WritesList};

// What a write of rows answers, as C needs it: how many rows are written and the place behind them. Where a row is refused, `refused` is its
// number and `rows` its index; then nothing is written, and the place is left. 2 and 4, of the room and the place, are told of row 0.
#[repr(C)]
#[derive(Drop)]
pub struct WrittenRows {
    pub refused: u8,
    pub rows: usize,
    pub place: usize,
}

// Writes an option for each row at `place`, one behind the other, as byte values. A row has three numbers: the code, and where the
// value begins in `values` and how long it is.
pub fn sindovaleph_write_list(
    room: &mut [u8],
    place: usize,
    rows: &[usize],
    values: &[u8],
) -> WrittenRows
    ensures { WritesList rows.now values.now room.old room.new place result }
{
    match options::rows::write_rows(room, place, rows, values) {
        Ok(written) => WrittenRows {
            refused: 0,
            rows: written.rows,
            place: written.place,
        },
        Err(refused) => WrittenRows {
            refused: refused.refusal.number(),
            rows: refused.row,
            place,
        },
    }
}
