// Input, byte by byte, through a buffer. Past the end of the input bytes are read as 0.
ghost use Rattle.std.specs.Prelude.{◌≤◌};

use std::io::Read;

// Where the bytes come from, and the buffer that they come through; those from `at` up to `end` are unread.
#[derive(Drop)]
pub struct Source<R> {
    from: R,
    buffer: [u8; 4096],
    at: usize,
    end: usize,
    ghost within: { end ≤ 4096 },
}

impl<R: Read> Source<R> {
    // A source of which nothing is read yet.
    pub fn new(from: R) -> Source<R> {
        Source {
            from,
            buffer: [0; 4096],
            at: 0,
            end: 0,
        }
    }

    // Refills the buffer. After a failed read nothing is unread, as at the end of the input.
    fn refill(&mut self) {
        self.at = 0;
        self.end = self.from.read(&mut self.buffer).unwrap_or(0);
    }

    // The next byte of the buffer, if one is unread.
    fn unread(&mut self) -> Option<u8> {
        if self.at < self.end {
            let byte = self.buffer[self.at];
            self.at += 1;
            Some(byte)
        } else {
            None
        }
    }

    pub fn next(&mut self) -> u8 {
        if let Some(byte) = self.unread() {
            return byte;
        }
        self.refill();
        self.unread().unwrap_or(0)
    }

    pub fn fill(&mut self, bytes: &mut [u8]) {
        for byte in bytes {
            *byte = self.next();
        }
    }
}
