// What is printed, put together before it is written.
ghost use Rattle.std.specs.Prelude.{◌≡◌, ℕ, ◌+◌, ◌<◌, ◌≤◌, List, [], ◌∷◌, ◌++◌, length, take};
ghost use Rattle.columns.specs.Text.{ended_length};

use columns::ENDED_LENGTH;
use std::marker::Model;

// A line with its end at most, in fixed memory: a contract sees the bytes up to `end`.
#[derive(Drop)]
pub struct Output {
    bytes: [u8; ENDED_LENGTH],
    end: usize,
}

impl Model for Output {
    ghost Value = { List ℕ };

    ghost view = { λ o. take o.end o.bytes };

    ghost invariant = { λ o. o.end ≤ ended_length };
}

impl Output {
    pub fn new() -> Output
        ensures { result ≡ [] }
    {
        Output {
            bytes: [0; ENDED_LENGTH],
            end: 0,
        }
    }

    // Puts a text behind what stands.
    pub fn put(&mut self, text: &[u8])
        requires { length self.old + length text.now ≤ ended_length }
        ensures { self.new ≡ self.old ++ text.now }
    {
        let end = self.end + text.len();
        self.bytes[self.end..end].copy_from_slice(text);
        self.end = end;
    }

    // Puts one more byte.
    pub fn push(&mut self, byte: u8)
        requires { length self.old < ended_length }
        ensures { self.new ≡ self.old ++ byte ∷ [] }
    {
        self.bytes[self.end] = byte;
        self.end += 1;
    }

    pub fn as_slice(&self) -> &[u8]
        ensures { result.now ≡ self.now }
    {
        &self.bytes[..self.end]
    }
}
