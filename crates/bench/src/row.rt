// A row of the report, put together before it is written.
ghost use Rattle.std.specs.Prelude.{◌≤◌};

use std::fmt;

// More than the longest row has.
const WIDTH: usize = 192;

// A row up to `end`, in fixed memory. What does not fit is dropped.
#[derive(Clone, Copy)]
pub struct Row {
    bytes: [u8; WIDTH],
    end: usize,
    ghost within: { end ≤ 192 },
}

impl Row {
    pub fn new() -> Row {
        Row {
            bytes: [b' '; WIDTH],
            end: 0,
        }
    }

    pub fn put(&mut self, text: &[u8]) {
        let n = text.len().min(WIDTH - self.end);
        self.bytes[self.end..self.end + n].copy_from_slice(&text[..n]);
        self.end += n;
    }

    // Goes on at a column, or one blank behind what stands, if that is further.
    pub fn column(&mut self, column: usize) {
        self.put(b" ");
        for _ in self.end..column {
            self.put(b" ");
        }
    }

    pub fn as_slice(&self) -> &[u8] {
        &self.bytes[..self.end]
    }
}

// What is formatted goes on where the row is.
impl fmt::Write for Row {
    fn write_str(&mut self, text: &str) -> fmt::Result {
        self.put(text.as_bytes());
        Ok(())
    }
}
