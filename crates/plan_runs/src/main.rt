// Runs calls of `plan_program` for a test; it is proved safe and ending, and no more.
// Commands from standard input act on a plan and a part of its
// next line, and the answers go to standard output. Each command is a letter, a byte and further bytes.
// Numbers are lowest byte first; input that ends within a command counts as followed by zeros.
//
//   N 0                      the plan before line one, and no part; no answer
//   P, L, T                  load the plan and the part (`plan_bytes`); no answer
//   F length room piece      feeds a piece of so many bytes, 250 at the most
//   E 0 room                 ends the text
//   A length room text       prints a whole text of so many bytes, 250 at the most
//
// `room` (four bytes) is the length of the lent buffer, 20,480 at the most, each byte of it 0xA5. A call
// is answered by a byte, 0 or the refusal's number; by the count of bytes (four); by the whole buffer; by
// the plan and by the part.
// Any other letter ends the run.
#![tactic(auto)]

use plan_bytes::Target;
use plan_program::{Part, Plan};
use refusal::Refusal;
use run_io::block::Block;
use run_io::commands;
use run_io::commands::Program;
use run_io::output::Sink;
use std::io::Write;

// What there is from one command to the next.
#[derive(Clone, Copy)]
struct State {
    plan: Plan,
    part: Part,
}

#[derive(Clone, Copy)]
enum Call {
    Feed,
    Finish,
    Print,
}

#[derive(Clone, Copy)]
enum Command {
    Start,
    Load(Target),
    Call(Call),
}

fn start() -> State {
    State {
        plan: plan_program::no_plan(),
        part: plan_program::no_part(),
    }
}

// The bytes after the room. More than 250 have no room in a block: the whole block stands for them.
fn text_of(block: &Block, length: u8) -> &[u8] {
    if length <= 250 {
        text_bytes::piece(block, length)
    } else {
        block
    }
}

impl State {
    fn feed(&mut self, piece: &[u8], out: &mut [u8]) -> Result<usize, Refusal> {
        let fed = plan_program::feed(self.plan, self.part, piece, out);
        self.plan = fed.plan;
        self.part = fed.part;
        fed.written
    }

    // Carries a call out and answers.
    fn call<W: Write>(&mut self, output: &mut Sink<W>, call: Call, length: u8, block: &Block) {
        let mut out = [0xA5u8; 20480];
        let lent = text_bytes::lent(&mut out, block);
        let text = text_of(block, length);
        let written = match call {
            Call::Feed => self.feed(text, lent),
            Call::Finish => plan_program::finish(self.plan, self.part, lent),
            Call::Print => plan_program::print_plan(text, lent),
        };
        text_bytes::put_written(output, written, lent);
        plan_bytes::put_plan(output, &self.plan);
        plan_bytes::put_part(output, &self.part);
    }
}

impl Program for State {
    type Command = Command;

    fn command_of(letter: u8) -> Option<Command> {
        match letter {
            b'N' => Some(Command::Start),
            b'F' => Some(Command::Call(Call::Feed)),
            b'E' => Some(Command::Call(Call::Finish)),
            b'A' => Some(Command::Call(Call::Print)),
            _ => plan_bytes::target_of(letter).map(Command::Load),
        }
    }

    fn body(command: Command, byte: u8) -> u8 {
        match command {
            Command::Start => 0,
            Command::Load(target) => plan_bytes::body(target),
            Command::Call(Call::Finish) => 4,
            Command::Call(Call::Feed | Call::Print) => text_bytes::piece_end(byte),
        }
    }

    fn run<W: Write>(&mut self, output: &mut Sink<W>, command: Command, byte: u8, block: &Block) {
        match command {
            Command::Start => *self = start(),
            Command::Load(target) => {
                plan_bytes::load(&mut self.plan, &mut self.part, target, byte, block)
            }
            Command::Call(call) => self.call(output, call, byte, block),
        }
    }
}

fn main(rt: HostRuntime) {
    commands::run_all(&rt, &mut start());
}
