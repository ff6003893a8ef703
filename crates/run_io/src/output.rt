// Output, byte by byte, through a buffer. What a failed write could not take is lost, and no answer tells
// of it.
ghost use Rattle.std.specs.Prelude.{◌≤◌};

use std::io::Write;

// Where the bytes go, the buffer that they wait in, and how many of them wait.
#[derive(Drop)]
pub struct Sink<W> {
    to: W,
    buffer: [u8; 4096],
    held: usize,
    ghost within: { held ≤ 4096 },
}

impl<W: Write> Sink<W> {
    // A sink in which nothing waits.
    pub fn new(to: W) -> Sink<W> {
        Sink {
            to,
            buffer: [0; 4096],
            held: 0,
        }
    }

    // Writes what waits.
    pub fn flush(&mut self) {
        let _ = self.to.write_all(&self.buffer[..self.held]);
        self.held = 0;
    }

    pub fn put(&mut self, byte: u8) {
        if self.held < 4096 {
            self.buffer[self.held] = byte;
            self.held += 1;
        } else {
            self.flush();
            self.buffer[0] = byte;
            self.held = 1;
        }
    }

    // Bytes that have room in the buffer go there at once, others one by one.
    pub fn put_all(&mut self, bytes: &[u8]) {
        let end = self.held.saturating_add(bytes.len());
        if end <= 4096 {
            self.buffer[self.held..end].copy_from_slice(bytes);
            self.held = end;
            return;
        }
        for &byte in bytes {
            self.put(byte);
        }
    }

    // Lowest byte first.
    pub fn put_long_words(&mut self, words: &[u64]) {
        for word in words {
            self.put_all(&word.to_le_bytes());
        }
    }
}
