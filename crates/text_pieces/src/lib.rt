// The loop of a program that takes a text in pieces, from standard input, and prints of it, to standard
// output: pieces are read into a buffer and handed over in turn, and what is printed of each is written at
// once. The functions are safe and end; no contract says more.
#![tactic(auto)]

use refusal::Refusal;
use std::io::Read;

pub trait Pieces {
    // Takes a piece; what is printed of it goes into the start of `output`.
    fn feed(&mut self, piece: &[u8], output: &mut [u8]) -> Result<usize, Refusal>;

    // Ends the text.
    fn finish(&mut self, output: &mut [u8]) -> Result<usize, Refusal>;

    // Whether the rest of the input is left unread.
    fn is_over(&self) -> bool {
        false
    }
}

// Writes what was printed, and tells whether that could be done.
fn write(rt: &impl Print, output: &[u8], written: Result<usize, Refusal>) -> bool {
    let Ok(count) = written else {
        return false;
    };
    if output.len() < count {
        return false;
    }
    rt.write_all(&output[0..count]).is_ok()
}

// Reads pieces until the input ends or the text is over. A failed read is no end of the text: nothing is
// printed of it. Nobody reads u64::MAX pieces.
pub fn run<T: Pieces>(
    rt: &(impl Input + Print + Eprint),
    text: &mut T,
    input: &mut [u8; 4096],
    output: &mut [u8],
) {
    let mut reader = rt.reader();
    for _ in 0..u64::MAX {
        let Ok(length) = reader.read(input) else {
            let _ = rt.eprint("the input cannot be read\n");
            return;
        };
        if length == 0 {
            let written = text.finish(output);
            write(rt, output, written);
            return;
        }
        let written = text.feed(&input[..length], output);
        if !write(rt, output, written) || text.is_over() {
            return;
        }
    }
}
