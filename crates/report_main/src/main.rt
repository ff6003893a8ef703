// The report over many plans (document 02, request m): plans from standard input, a line for each and
// one for the totals to standard output. What is printed of which bytes is proved in `plan_report`; the
// loop that reads and writes is that of `text_pieces`.
#![tactic(auto)]

use plan_report::Report;
use refusal::Refusal;
use text_pieces::Pieces;

// The report so far.
#[derive(Clone, Copy)]
struct Reporting {
    report: Report,
}

impl Pieces for Reporting {
    fn feed(&mut self, piece: &[u8], output: &mut [u8]) -> Result<usize, Refusal> {
        let fed = plan_report::feed(self.report, piece, output);
        self.report = fed.report;
        fed.written
    }

    fn finish(&mut self, output: &mut [u8]) -> Result<usize, Refusal> {
        plan_report::finish(self.report, output)
    }
}

// The output holds 110 bytes for each byte of a piece, all that can be printed of it.
fn main(rt: HostRuntime) {
    let mut reporting = Reporting {
        report: plan_report::start(),
    };
    let mut input: [u8; 4096] = [0; 4096];
    let mut output: [u8; 450560] = [0; 450560];
    text_pieces::run(&rt, &mut reporting, &mut input, &mut output);
}
