// The walk over an area, told as the crate's was recorded: as many calls as the area has bytes, and one more, so that the last finds it
// out. An option is 1, its code, its length (2 bytes) and its value; each of the five stops is 0.
use crate::pages::Page;
use borrowed::answer::Step;
use limits::MOST_BYTES;

// Whether the walk over an area is as recorded.
pub(crate) fn right(area: &[u8], answer: &[u8]) -> bool {
    let mut page = Page::new();
    walk(area, &mut page).is_some() && page.reads(answer)
}

// Puts what each call says on the page.
fn walk(area: &[u8], page: &mut Page) -> Option<()> {
    if area.len() > MOST_BYTES {
        return None;
    }
    let mut join = [0u8; 4096];
    let mut place = 0;
    for _ in 0..area.len() + 1 {
        match borrowed::step(area, place, &mut join).ok()? {
            Step::Found(found) => {
                put_option(page, found.code, found.value(area, &join))?;
                place = found.place;
            }
            Step::Stopped(_, at) => {
                page.put(&[0])?;
                place = at;
            }
        }
    }
    Some(())
}

fn put_option(page: &mut Page, code: u8, value: &[u8]) -> Option<()> {
    page.put(&[1, code])?;
    page.put_count(value.len())?;
    page.put(value)
}
