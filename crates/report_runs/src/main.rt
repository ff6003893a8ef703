// Runs calls of `plan_report` for a test; it is proved safe and ending, and no more.
// Commands from standard input act on a report, and the answers go
// to standard output. Each command is a letter, a byte and further bytes. Numbers are lowest byte first;
// input that ends within a command counts as followed by zeros.
//
//   N 0                              the report that `start` gives; no answer
//   M 0 plans fault figures totals   plans (eight bytes), fault (four), figures and totals (four numbers of
//                                    eight bytes each) of the report; no answer
//   P, L, T                          load its plan and its part (`plan_bytes`); no answer
//   F length room piece              feeds a piece of so many bytes, 250 at the most
//   E 0 room                         ends the text
//   A 0 totals figures               adds figures to totals; the report stays
//
// `room` (four bytes) is the length of the lent buffer, 27,648 at the most, each byte of it 0xA5. F and E
// are answered by a byte, 0 or the refusal's number; by the count of bytes (four); by the whole buffer; by
// plans, fault, figures and totals of the report, its plan and its part. A is answered by such a byte and
// the totals.
// Any other letter ends the run. Before the first command the report is that of `N 0`.
#![tactic(auto)]

ghost use Rattle.std.specs.Prelude.{◌≤◌};

use plan_bytes::Target;
use plan_report::{Figures, Report, Tally};
use refusal::Refusal;
use run_io::block::Block;
use run_io::commands::Program;
use run_io::output::Sink;
use run_io::{block, commands};
use std::io::Write;
use text_bytes::Call;
use text_pieces::Pieces;

// What there is from one command to the next.
#[derive(Clone, Copy)]
struct State {
    report: Report,
}

#[derive(Clone, Copy)]
enum Command {
    Start,
    LoadNumbers,
    Load(Target),
    Call(Call),
    Add,
}

// Four figures at a place of a command.
fn figures_at(block: &Block, at: usize) -> Figures
    requires { at ≤ 100 }
{
    Figures {
        slots: block::long_word(block, at),
        members: block::long_word(block, at + 8),
        listed: block::long_word(block, at + 16),
        apart: block::long_word(block, at + 24),
    }
}

fn put_figures<W: Write>(output: &mut Sink<W>, figures: Figures) {
    output.put_long_words(&[
        figures.slots,
        figures.members,
        figures.listed,
        figures.apart,
    ]);
}

// ---- the report

fn load_numbers(tally: &mut Tally, block: &Block) {
    tally.plans = block::long_word(block, 0);
    tally.fault = block::word(block, 8);
    tally.figures = figures_at(block, 12);
    tally.totals = figures_at(block, 44);
}

fn load(report: &mut Report, target: Target, byte: u8, block: &Block) {
    let (plan, part) = (&mut report.tally.plan, &mut report.part);
    plan_bytes::load(plan, part, target, byte, block);
}

fn put_report<W: Write>(output: &mut Sink<W>, report: &Report) {
    let tally = &report.tally;
    output.put_long_words(&[tally.plans]);
    output.put_all(&tally.fault.to_le_bytes());
    put_figures(output, tally.figures);
    put_figures(output, tally.totals);
    plan_bytes::put_plan(output, &tally.plan);
    plan_bytes::put_part(output, &report.part);
}

// ---- calls

fn answer_byte(answer: Result<(), Refusal>) -> u8 {
    match answer {
        Ok(()) => 0,
        Err(cause) => (refusal::number(cause) % 256) as u8,
    }
}

// Adds and answers.
fn add<W: Write>(output: &mut Sink<W>, block: &Block) {
    let added = plan_report::add(figures_at(block, 0), figures_at(block, 32));
    output.put(answer_byte(added.answer));
    put_figures(output, added.totals);
}

impl Pieces for State {
    fn feed(&mut self, piece: &[u8], output: &mut [u8]) -> Result<usize, Refusal> {
        let fed = plan_report::feed(self.report, piece, output);
        self.report = fed.report;
        fed.written
    }

    fn finish(&mut self, output: &mut [u8]) -> Result<usize, Refusal> {
        plan_report::finish(self.report, output)
    }
}

impl Program for State {
    type Command = Command;

    fn command_of(letter: u8) -> Option<Command> {
        match letter {
            b'N' => Some(Command::Start),
            b'M' => Some(Command::LoadNumbers),
            b'A' => Some(Command::Add),
            b'F' | b'E' => text_bytes::call_of(letter).map(Command::Call),
            _ => plan_bytes::target_of(letter).map(Command::Load),
        }
    }

    fn body(command: Command, byte: u8) -> u8 {
        match command {
            Command::Start => 0,
            Command::LoadNumbers => 76,
            Command::Load(target) => plan_bytes::body(target),
            Command::Call(call) => text_bytes::body(call, byte),
            Command::Add => 64,
        }
    }

    fn run<W: Write>(&mut self, output: &mut Sink<W>, command: Command, byte: u8, block: &Block) {
        match command {
            Command::Start => self.report = plan_report::start(),
            Command::LoadNumbers => load_numbers(&mut self.report.tally, block),
            Command::Load(target) => load(&mut self.report, target, byte, block),
            Command::Call(call) => {
                let mut buffer = [0xA5; 27648];
                text_bytes::run_call(output, self, call, byte, block, &mut buffer);
                put_report(output, &self.report);
            }
            Command::Add => add(output, block),
        }
    }
}

fn main(rt: HostRuntime) {
    let mut state = State {
        report: plan_report::start(),
    };
    commands::run_all(&rt, &mut state);
}
