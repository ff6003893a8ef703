// Runs calls of `converter_text` for a test; it is proved safe and ending, and no more.
// Commands from standard input act on a recording, and the
// answers go to standard output. Each command is a letter, a byte and further bytes. Numbers are lowest
// byte first; input that ends within a command counts as followed by zeros.
//
//   N direction                      the recording that `start` gives; no answer
//   L direction lines length text    the recording becomes this one: lines and length (eight bytes each)
//                                    and its 121 bytes; no answer
//   F length room piece              feeds a piece of so many bytes, 250 at the most
//   E 0 room                         ends the text
//
// A direction is 0 for three and 1 for two; any other byte stands for 1. `room` (four bytes) is the length
// of the lent buffer, 20,480 at the most, each byte of it 0xA5. A call is answered by a byte, 0 or the
// refusal's number; by the count of bytes (four); by the whole buffer; by the recording's direction (a
// byte), lines and length (eight bytes each) and 121 bytes.
// Any other letter ends the run. Before the first command the recording is that of `N 0`.
#![tactic(auto)]

use converter_text::{Direction, Recording};
use refusal::Refusal;
use run_io::block::Block;
use run_io::commands::Program;
use run_io::output::Sink;
use run_io::{block, commands};
use std::io::Write;
use text_bytes::Call;
use text_pieces::Pieces;

// What there is from one command to the next.
#[derive(Clone, Copy)]
struct State {
    recording: Recording,
}

#[derive(Clone, Copy)]
enum Command {
    Start,
    Load,
    Call(Call),
}

fn direction_of(byte: u8) -> Direction {
    match byte {
        0 => Direction::Three,
        _ => Direction::Two,
    }
}

fn direction_byte(direction: Direction) -> u8 {
    match direction {
        Direction::Three => 0,
        Direction::Two => 1,
    }
}

fn recording_of(byte: u8, block: &Block) -> Recording {
    Recording {
        direction: direction_of(byte),
        lines: block::long_word(block, 0),
        length: block::long_word(block, 8) as usize,
        text: text_bytes::text_at(block, 16),
    }
}

fn put_recording<W: Write>(output: &mut Sink<W>, recording: &Recording) {
    output.put(direction_byte(recording.direction));
    output.put_long_words(&[recording.lines]);
    text_bytes::put_text(output, recording.length, &recording.text);
}

impl Pieces for State {
    fn feed(&mut self, piece: &[u8], output: &mut [u8]) -> Result<usize, Refusal> {
        let fed = converter_text::feed(self.recording, piece, output);
        self.recording = fed.recording;
        fed.written
    }

    fn finish(&mut self, output: &mut [u8]) -> Result<usize, Refusal> {
        converter_text::finish(self.recording, output)
    }
}

impl Program for State {
    type Command = Command;

    fn command_of(letter: u8) -> Option<Command> {
        match letter {
            b'N' => Some(Command::Start),
            b'L' => Some(Command::Load),
            _ => text_bytes::call_of(letter).map(Command::Call),
        }
    }

    fn body(command: Command, byte: u8) -> u8 {
        match command {
            Command::Start => 0,
            Command::Load => 137,
            Command::Call(call) => text_bytes::body(call, byte),
        }
    }

    fn run<W: Write>(&mut self, output: &mut Sink<W>, command: Command, byte: u8, block: &Block) {
        match command {
            Command::Start => self.recording = converter_text::start(direction_of(byte)),
            Command::Load => self.recording = recording_of(byte, block),
            Command::Call(call) => {
                let mut buffer = [0xA5; 20480];
                text_bytes::run_call(output, self, call, byte, block, &mut buffer);
                put_recording(output, &self.recording);
            }
        }
    }
}

fn main(rt: HostRuntime) {
    let mut state = State {
        recording: converter_text::start(Direction::Three),
    };
    commands::run_all(&rt, &mut state);
}
