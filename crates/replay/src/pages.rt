// Bytes laid one behind another on a page, as answers are recorded, and compared. What does not fit a page answers None.
#[derive(Drop)]
pub struct Page {
    bytes: [u8; 8192],
    // The place behind the bytes that are put.
    end: usize,
}

impl Page {
    pub(crate) fn new() -> Page {
        Page {
            bytes: [0; 8192],
            end: 0,
        }
    }

    // Puts bytes behind those that are there.
    pub(crate) fn put(&mut self, bytes: &[u8]) -> Option<()> {
        self.end = encoder::write_slice(&mut self.bytes, self.end, bytes).ok()?;
        Some(())
    }

    // Puts the lowest `size` bytes of a number, the highest first.
    pub(crate) fn put_number(&mut self, n: u32, size: usize) -> Option<()> {
        let bytes = encoder::u32_bytes(n);
        self.put(bytes.get(4usize.checked_sub(size)?..)?)
    }

    // Puts how many there are of something, in two bytes.
    pub(crate) fn put_count(&mut self, count: usize) -> Option<()> {
        self.put(&encoder::u16_bytes(u16::try_from(count).ok()?))
    }

    // Whether these bytes are put, and no others.
    pub(crate) fn reads(&self, bytes: &[u8]) -> bool {
        borrowed::part(&self.bytes, 0, self.end) == bytes
    }
}
