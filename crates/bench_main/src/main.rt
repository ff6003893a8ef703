// The bench program (document 01, "The bench program"): a plan from standard input, a line for each
// slot to standard output. What is printed of which bytes is proved in `plan_program`; the loop that reads
// and writes is that of `text_pieces`.
#![tactic(auto)]

use plan_program::{Part, Plan};
use refusal::Refusal;
use text_pieces::Pieces;

// The plan so far, and a part of its next line.
#[derive(Clone, Copy)]
struct Run {
    plan: Plan,
    part: Part,
}

impl Pieces for Run {
    fn feed(&mut self, piece: &[u8], output: &mut [u8]) -> Result<usize, Refusal> {
        let fed = plan_program::feed(self.plan, self.part, piece, output);
        self.plan = fed.plan;
        self.part = fed.part;
        fed.written
    }

    fn finish(&mut self, output: &mut [u8]) -> Result<usize, Refusal> {
        plan_program::finish(self.plan, self.part, output)
    }

    fn is_over(&self) -> bool {
        self.plan.over
    }
}

// The output holds 80 bytes for each byte of a piece, all that can be printed of it. In `main` itself the
// compiler would zero it twice.
fn run_plan(rt: &(impl Input + Print + Eprint)) {
    let mut run = Run {
        plan: plan_program::no_plan(),
        part: plan_program::no_part(),
    };
    let mut input: [u8; 4096] = [0; 4096];
    let mut output: [u8; 327680] = [0; 327680];
    text_pieces::run(rt, &mut run, &mut input, &mut output);
}

fn main(rt: HostRuntime) {
    run_plan(&rt);
}
