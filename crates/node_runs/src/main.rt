// Runs calls of `node` for a test; it is proved safe and ending, and no more.
// Commands from standard input act on one record and on its counts of
// failure reports, and the answers go to standard output. Numbers are lowest byte first; input that ends
// within a command counts as followed by zeros.
//
//   U places n k m lag own slots   set-up, with a slot table of so many places (a byte each), 235 at the
//                                  most
//   S size bytes                   one slot, with these bytes heard
//   T size jobs                    sending, with this job byte, into a buffer of so many bytes, each 0xA5
//   F                              off
//   R                              restart
//   L record                       the record becomes this one; no answer
//   H rules                        the record becomes what holds this record of the rules
//   A                              the record of the rules that the record stands for
//   C row job count                this count becomes that (eight bytes); rows are 0 to 31 and jobs 0 to
//                                  7, a byte each, and any other leaves all counts; no answer
//   K                              the counts
//
// U, S, F, R and H are answered by a byte, 0 or the refusal's number, and the record; A by such a byte and
// the record of the rules; T by such a byte, the number of bytes written, and the whole buffer; K by all
// counts, 32 rows of 8, eight bytes each. A U or S that is refused leaves record and counts, and A always
// does. Any other byte ends the run. Before the first command all counts are 0.
#![tactic(auto)]

use node_bytes::calls::{Outcome, Request};
use node_bytes::{bytes, calls, counts};
use run_io::block::Block;
use run_io::commands;
use run_io::commands::Program;
use run_io::output::Sink;
use std::io::Write;

// The record and its counts.
#[derive(Clone, Copy)]
struct State {
    record: Block,
    counts: [[u64; 8]; 32],
}

// A call goes by its letter.
#[derive(Clone, Copy)]
enum Command {
    Call(u8),
    LoadCount,
    PutCounts,
}

// The number, and a record.
fn answer<W: Write>(output: &mut Sink<W>, number: u32, record: &[u8]) {
    output.put((number % 256) as u8);
    output.put_all(record);
}

fn answer_to_send<W: Write>(output: &mut Sink<W>, outcome: Outcome, buffer: &[u8]) {
    output.put((outcome.number % 256) as u8);
    output.put((outcome.sent % 256) as u8);
    output.put_all(buffer);
}

impl State {
    // Carries a call out and answers. It sends into a buffer of 0xA5.
    fn call<W: Write>(&mut self, output: &mut Sink<W>, letter: u8, size: u8, block: &Block) {
        let request = calls::request_of(letter);
        let mut block = *block;
        if matches!(request, Request::Send) {
            block[1..].fill(0xA5);
        }
        let (record, counts) = (&mut self.record, &mut self.counts);
        let outcome = calls::call(record, counts, &mut block, letter, size);
        let number = outcome.number;
        match request {
            Request::Load => {}
            Request::AsSet => answer(output, number, &block[..usize::from(bytes::RULES)]),
            Request::Send => answer_to_send(output, outcome, &block[..usize::from(size)]),
            Request::SetUp | Request::Slot | Request::Off | Request::Restart | Request::Hold => {
                answer(output, number, &self.record[..usize::from(bytes::RECORD)])
            }
        }
    }
}

impl Program for State {
    type Command = Command;

    fn has_byte(letter: u8) -> bool {
        matches!(letter, b'U' | b'S' | b'T')
    }

    fn command_of(letter: u8) -> Option<Command> {
        match letter {
            b'U' | b'S' | b'T' | b'F' | b'R' | b'L' | b'H' | b'A' => Some(Command::Call(letter)),
            b'C' => Some(Command::LoadCount),
            b'K' => Some(Command::PutCounts),
            _ => None,
        }
    }

    fn body(command: Command, size: u8) -> u8 {
        match command {
            Command::Call(letter) => calls::body(calls::request_of(letter), size),
            Command::LoadCount => 10,
            Command::PutCounts => 0,
        }
    }

    fn run<W: Write>(&mut self, output: &mut Sink<W>, command: Command, size: u8, block: &Block) {
        match command {
            Command::Call(letter) => self.call(output, letter, size, block),
            Command::LoadCount => counts::load(&mut self.counts, block),
            Command::PutCounts => counts::put_counts(output, &self.counts),
        }
    }
}

fn main(rt: HostRuntime) {
    let mut state = State {
        record: bytes::first(),
        counts: node_reports::NO_REPORTS,
    };
    commands::run_all(&rt, &mut state);
}
