// The options of an area, listed in one call into lent rows: as they are found, or with what each reads as.
ghost use Rattle.std.specs.Prelude.{ℕ, ◌≡◌, ◌≤◌, length, refl};
ghost use Rattle.facts.specs.Over.{over};
ghost use Rattle.values.specs.Reading.{mode_of, ReadAs};
ghost use Rattle.sindovaleph_rows.specs.Listing.{Lists, found, typed, read_unjoined};
ghost use Rattle.sindovaleph_rows.specs.Listing.{Columns, width, row_found, bytes_of, front_of, Inside, Fits, listed_here};

use borrowed::answer::{Found, Step, Stop};
use crossing::answers::Value;
use limits::MOST_BYTES;
use refusal::Refusal;
use values::answer::Value as Held;

// What a listing answers, as C needs it: how many rows it filled, the stop as `Step` has it, 0 where there is no room for a further row, and
// the place where a further call goes on. `refused` is the number of a refusal, 0 for none: it fills no row and leaves the place.
#[repr(C)]
#[derive(Drop)]
pub struct Listed {
    pub refused: u8,
    pub stop: u8,
    pub rows: usize,
    pub place: usize,
}

// How far the lent rows are filled: the stop, or none where there is no room for a further row, how many rows are filled, and the place.
#[derive(Drop)]
struct Filled {
    stop: Option<Stop>,
    rows: usize,
    place: usize,
}

// What a row says of an option, in how many numbers. The compiler makes a listing of its own for each, which knows how wide its rows are.
trait Row: Copy {
    ghost WIDTH: { ℕ };

    ghost columns: { Self → Columns };

    const WIDTH: usize;

    // Puts an option's numbers into its row.
    fn put(self, row: &mut [usize], area: &[u8], found: Found)
        requires { Fits WIDTH row.old area.now found }
        ensures { row.new ≡ row_found (columns self) area.now found };

    ghost wide: { (row : Self) → width (columns row) ≡ WIDTH };
}

// The code, the parts, the length of the value and the place behind the option, as `Step` has them.
#[derive(Clone, Copy)]
struct AsFound;

// The same four, and then those of `Value`: what the option reads as, plain or strict.
#[derive(Clone, Copy)]
struct AsRead {
    strict: bool,
}

impl Row for AsFound {
    ghost WIDTH = { 4 };

    ghost columns = { λ row. found };

    const WIDTH: usize = 4;

    ghost wide = { λ row. refl };

    fn put(self, row: &mut [usize], area: &[u8], found: Found) {
        put_found(row, found);
    }
}

impl Row for AsRead {
    ghost WIDTH = { 8 };

    ghost columns = { λ row. typed (mode_of row.strict) };

    const WIDTH: usize = 8;

    ghost wide = { λ row. refl };

    fn put(self, row: &mut [usize], area: &[u8], found: Found) {
        put_found(row, found);
        let value = Value::from(read_unjoined(area, found, self.strict));
        row[4] = value.refused as usize;
        row[5] = value.kind as usize;
        row[6] = value.number as usize;
        row[7] = value.count;
    }
}

// Puts the first four numbers of a row: stores one by one, since a slice copied from an array goes through memory, and before anything is
// read, which leaves the compiler more registers.
fn put_found(row: &mut [usize], found: Found)
    requires { 4 ≤ length row.old }
    ensures { row.new ≡ over row.old 0 (front_of found) }
{
    row[0] = found.code as usize;
    row[1] = found.parts;
    row[2] = found.len;
    row[3] = found.place;
}

// Lists the options from `place` on, four numbers a row: the code, the parts, the length of the value and the place behind the
// option, as `Step` has them. Nothing is joined.
pub fn sindovaleph_list(area: &[u8], place: usize, rows: &mut [usize]) -> Listed
    ensures { Lists found area.now place rows.old rows.new result }
{
    listed_of(fill(AsFound, area, place, rows), place)
}

// The same with what each option reads as, plain or strict, eight numbers a row: the four of `sindovaleph_list`, then those of
// `Value`. Since nothing is joined, an option of two parts or more is refused with 5, unless it is empty. `sindovaleph_typed_rows`
// exports it: each archive has one function that fills rows.
pub fn read_list(area: &[u8], place: usize, rows: &mut [usize], strict: bool) -> Listed
    ensures { Lists (typed (mode_of strict)) area.now place rows.old rows.new result }
{
    listed_of(fill(AsRead { strict }, area, place, rows), place)
}

// How a listing from `place` crosses.
fn listed_of(filled: Result<Filled, Refusal>, place: usize) -> Listed
    ensures { result ≡ listed_here place filled }
{
    match filled {
        Ok(filled) => Listed {
            refused: 0,
            stop: filled.stop.map_or(0, crossing::stop_number),
            rows: filled.rows,
            place: filled.place,
        },
        Err(refusal) => Listed {
            refused: refusal.number(),
            stop: 0,
            rows: 0,
            place,
        },
    }
}

// Fills rows from the front, with the options from `place` on. What is refused is refused before the first row: the area and the place
// are checked, and nothing is joined.
fn fill<R: Row>(row: R, area: &[u8], place: usize, rows: &mut [usize]) -> Result<Filled, Refusal>
    ensures { Lists (R.columns row) area.now place rows.old rows.new (listed_here place result) }
{
    if area.len() > MOST_BYTES {
        return Err(Refusal::TooLong);
    }
    if place > area.len() {
        return Err(Refusal::PastEnd);
    }
    let mut at = place;
    let width = R::WIDTH;
    let most = rows.len() / width;
    for k in 0..most {
        match borrowed::look(area, at)? {
            Step::Found(found) => {
                let i = width * k;
                row.put(&mut rows[i..i + width], area, found);
                at = found.place;
            }
            Step::Stopped(stop, to) => {
                return Ok(Filled {
                    stop: Some(stop),
                    rows: k,
                    place: to,
                });
            }
        }
    }
    Ok(Filled {
        stop: None,
        rows: most,
        place: at,
    })
}

// What an option reads as, where nothing can be joined.
fn read_unjoined(area: &[u8], found: Found, strict: bool) -> Result<Held, Refusal>
    requires { Inside area.now found.len found.place }
    ensures { ReadAs (bytes_of area.now found)
        (read_unjoined (mode_of strict) found.code (bytes_of area.now found) found.parts found.place) result }
{
    if found.parts > 1 && found.len > 0 {
        return Err(Refusal::JoinTooShort(found.len));
    }
    values::read(
        found.code,
        &area[found.place - found.len..found.place],
        strict,
    )
}
