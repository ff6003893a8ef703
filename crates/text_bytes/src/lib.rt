// Texts that come in pieces, as bytes of commands and answers, for the programs that run calls on them for
// a test. The functions are safe and end; no contract of a result says more.
#![tactic(auto)]

ghost use Rattle.std.specs.Prelude.{◌≤◌};

use refusal::Refusal;
use run_io::block;
use run_io::block::Block;
use run_io::output::Sink;
use std::io::Write;
use text_pieces::Pieces;

// A call on a text: the next piece is fed, or the text ends.
#[derive(Clone, Copy)]
pub enum Call {
    Feed,
    Finish,
}

// The call that a command's letter stands for, if any.
pub fn call_of(letter: u8) -> Option<Call> {
    match letter {
        b'F' => Some(Call::Feed),
        b'E' => Some(Call::Finish),
        _ => None,
    }
}

// How many bytes follow the letter and the length: a room of four, and the piece.
pub fn body(call: Call, length: u8) -> u8 {
    match call {
        Call::Feed => piece_end(length),
        Call::Finish => 4,
    }
}

// The end of a piece of so many bytes that stands after the room; no block holds more than 250.
pub fn piece_end(length: u8) -> u8
    ensures { (4 ≤ result) × (result ≤ 254) }
{
    length.min(250) + 4
}

// That piece.
pub fn piece(block: &Block, length: u8) -> &[u8] {
    &block[4..usize::from(piece_end(length))]
}

// The bytes kept of a line, at a place of a command.
pub fn text_at(block: &Block, at: usize) -> [u8; 121]
    requires { at ≤ 134 }
{
    let mut text = [0u8; 121];
    text.copy_from_slice(&block[at..at + 121]);
    text
}

// The first bytes of the buffer, as many as the command's room, or all if there are fewer.
pub fn lent<'a>(buffer: &'a mut [u8], block: &Block) -> &'a mut [u8] {
    block::first(buffer, block::word(block, 0) as usize)
}

fn set_written(answer: &mut Block, written: Result<usize, Refusal>) {
    match written {
        Ok(count) => {
            block::set_long_word(answer, 1, count as u64);
        }
        Err(cause) => {
            answer[0] = (refusal::number(cause) % 256) as u8;
        }
    }
}

// A byte, 0 or the refusal's number, the count of bytes (four), and the lent buffer.
pub fn put_written<W: Write>(output: &mut Sink<W>, written: Result<usize, Refusal>, lent: &[u8]) {
    let mut answer = [0u8; 255];
    set_written(&mut answer, written);
    output.put_all(&answer[..5]);
    output.put_all(lent);
}

// Carries a call out in the first bytes of the buffer, and answers by what it wrote and these bytes.
pub fn run_call<W: Write, T: Pieces>(
    output: &mut Sink<W>,
    text: &mut T,
    call: Call,
    length: u8,
    block: &Block,
    buffer: &mut [u8],
) {
    let lent = lent(buffer, block);
    let written = match call {
        Call::Feed => text.feed(piece(block, length), lent),
        Call::Finish => text.finish(lent),
    };
    put_written(output, written, lent);
}

// How many bytes of a line have come (eight bytes), and the 121 that hold them.
pub fn put_text<W: Write>(output: &mut Sink<W>, length: usize, text: &[u8; 121]) {
    output.put_long_words(&[length as u64]);
    output.put_all(text);
}
