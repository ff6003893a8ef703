// The report over many plans but for reading and writing (document 02, request m): a text of plans comes
// in pieces, and what is printed of it goes into lent bytes. `feed` runs the lines that end in a piece,
// `finish` ends the text; `add` adds the figures of a plan to the totals.
#![tactic(auto)]

ghost use Rattle.std.specs.Prelude.{◌≡◌, true, ◌+◌, ◌*◌, ◌≤◌, ◌++◌, length};
ghost use Rattle.plan_program.specs.bench_by_value.ByValue.{table_of};
ghost use Rattle.plan_text.specs.Text.{PutAt, PutFew};
ghost use Rattle.plan_program.specs.Calls.{bytes_in, plan_sound};
ghost use Rattle.bench.specs.Table.{node_count};
ghost use Rattle.bench.specs.Runs.{set_in};
ghost use Rattle.nodeset.specs.Sets.{size};
ghost use Rattle.plan_report.specs.Figures.{add_of, all_fit, members_in};
ghost use Rattle.plan_report.specs.Report.{fault_in, figures_text, is_next, total_text, verdict_text};
ghost use Rattle.plan_report.specs.Tallies.{after_line_in, end_text, line_done, line_text, plan_ended, raised_by, tally_with, totals_by, verdict_of};
ghost use Rattle.plan_report.specs.Calls.{after, fed_as, fed_of, finished_of, line_ended, start_of, text_of, with_byte};
ghost use Rattle.plan_report.specs.Inner.{figures_by, told_figures, Took};

use bench::Outcome;
use node_record::Held;
use plan_program::{Part, Plan};
use refusal::Refusal;

// The figures of a plan, or of all plans: the slots; over these, the nodes in the member state after the
// slot and the listed nodes after it; the slots with a distance above 0.
#[derive(Clone, Copy)]
pub struct Figures {
    pub slots: u64,
    pub members: u64,
    pub listed: u64,
    pub apart: u64,
}

// The totals after a plan's figures were added to them, or as they were. No `Result` of totals: the clause
// `AddsBy` of the theorem `demand1` speaks of the totals that come back with a refusal.
#[derive(Clone, Copy)]
pub struct Added {
    pub totals: Figures,
    pub answer: Result<(), Refusal>,
}

// A report as far as its lines have been run: how many plans have ended, the plan that runs, its figures,
// by which number it was refused (0 for none, as in `fault_in`), and the totals.
#[derive(Clone, Copy)]
pub struct Tally {
    pub plans: u64,
    pub plan: Plan,
    pub figures: Figures,
    pub fault: u32,
    pub totals: Figures,
}

// A report, and what has come of its next line.
#[derive(Clone, Copy)]
pub struct Report {
    pub tally: Tally,
    pub part: Part,
}

// What came of a piece. Where it is refused, the report is the one that was passed.
#[derive(Clone, Copy)]
pub struct Fed {
    pub report: Report,
    pub written: Result<usize, Refusal>,
}

// Where a plan was refused: the line, and by which number.
#[derive(Clone, Copy)]
struct Stopped {
    line: u64,
    number: u32,
}

// What came of a byte: the report, and the place after what was printed.
#[derive(Clone, Copy)]
struct Taken {
    report: Report,
    at: usize,
}

const NO_FIGURES: Figures = Figures {
    slots: 0,
    members: 0,
    listed: 0,
    apart: 0,
};

// ---- figures

// Whether no sum passes 64 bits.
fn all_fit(t: Figures, f: Figures) -> bool
    ensures { result ≡ all_fit t f }
{
    t.slots.checked_add(f.slots).is_some()
        && t.members.checked_add(f.members).is_some()
        && t.listed.checked_add(f.listed).is_some()
        && t.apart.checked_add(f.apart).is_some()
}

// Adds figures to totals. It refuses by 19, and then the totals keep what they had.
#[tactic(auto, unfolding(crate::specs::Figures::add_of))]
pub fn add(totals: Figures, figures: Figures) -> Added
    ensures { result ≡ add_of totals figures }
{
    if !all_fit(totals, figures) {
        return Added {
            totals,
            answer: Err(Refusal::SumPasses),
        };
    }
    let sums = Figures {
        slots: totals.slots + figures.slots,
        members: totals.members + figures.members,
        listed: totals.listed + figures.listed,
        apart: totals.apart + figures.apart,
    };
    Added {
        totals: sums,
        answer: Ok(()),
    }
}

// Figures raised, each up to the last number of 64 bits.
fn raised_by(f: Figures, g: Figures) -> Figures
    ensures { result ≡ raised_by f g }
{
    Figures {
        slots: f.slots.saturating_add(g.slots),
        members: f.members.saturating_add(g.members),
        listed: f.listed.saturating_add(g.listed),
        apart: f.apart.saturating_add(g.apart),
    }
}

// How many of the rows are the table of n nodes.
fn rows_of(rows: [Held; 32], n: u32) -> u32
    ensures { result ≡ node_count (table_of n rows) }
{
    n.min(rows.len() as u32)
}

// How many of the first n records are in the member state.
fn members_in(rows: [Held; 32], n: u32) -> u64
    ensures { result ≡ members_in (table_of n rows) }
{
    rows.iter()
        .take(n as usize)
        .filter(|v| node_record::is_member(v.state))
        .count() as u64
}

// How many of n nodes are listed.
fn listed_in(n: u32, list: Option<u32>) -> u64
    ensures { result ≡ size n (set_in list) }
{
    match list {
        Some(set) => nodeset::size(n, set) as u64,
        None => 0,
    }
}

// The figures of a slot by what is printed of it, and the table after it.
fn told_figures(plan: Plan, list: Option<u32>, distance: u32) -> Figures
    ensures { result ≡ told_figures plan list distance }
{
    let rows = plan.rows;
    Figures {
        slots: 1,
        members: members_in(rows, plan.n),
        listed: listed_in(rows_of(rows, plan.n), list),
        apart: u64::from(0 < distance),
    }
}

// The figures after a line that left this plan.
fn figures_by(f: Figures, plan: Plan) -> Figures
    ensures { result ≡ figures_by f plan plan.outcome }
{
    let outcome = plan.outcome;
    match outcome {
        Outcome::Quiet => f,
        Outcome::Slot(_, _, _, list, distance) => raised_by(f, told_figures(plan, list, distance)),
        Outcome::Refused(_) => f,
    }
}

// By which number a line was refused; 0 for none, by the definition `fault_in`: no refusal has that
// number.
fn fault_in(outcome: Outcome) -> u32
    ensures { result ≡ fault_in outcome }
{
    match outcome {
        Outcome::Quiet => 0,
        Outcome::Slot(_, _, _, _, _) => 0,
        Outcome::Refused(cause) => refusal::number(cause),
    }
}

// ---- lines and plans

// After so many plans.
fn tally_with(plans: u64, totals: Figures) -> Tally
    ensures { result ≡ tally_with plans totals }
{
    let plan = plan_program::no_plan();
    let figures = NO_FIGURES;
    Tally {
        plans,
        plan,
        figures,
        fault: 0,
        totals,
    }
}

// After a line of a plan. Requires a plan that can go on.
fn line_done(t: Tally, part: Part) -> Tally
    requires { plan_sound t.plan ≡ true }
    ensures { result ≡ line_done t (bytes_in part) }
{
    let plan = t.plan;
    let next = plan_program::run_line(plan, part);
    let figures = figures_by(t.figures, next);
    let outcome = next.outcome;
    let fault = if plan.over {
        t.fault
    } else {
        fault_in(outcome)
    };
    let totals = t.totals;
    Tally {
        plans: t.plans,
        plan: next,
        figures,
        fault,
        totals,
    }
}

// What comes of a plan that ends, within a line or not: its figures count, or it is refused at a line.
fn verdict_of(t: Tally, begun: bool) -> Result<(), Stopped>
    ensures { result ≡ verdict_of t begun }
{
    let plan = t.plan;
    let added = add(t.totals, t.figures);
    let answer = added.answer;
    if plan.over {
        return Err(Stopped {
            line: plan.lines,
            number: t.fault,
        });
    }
    if (plan.lines == 0) | begun {
        return Err(Stopped {
            line: plan_text::next_line(plan.lines),
            number: 12,
        });
    }
    match answer {
        Ok(()) => Ok(()),
        Err(_) => Err(Stopped {
            line: plan.lines,
            number: 19,
        }),
    }
}

// The totals after a plan.
fn totals_by(verdict: Result<(), Stopped>, t: Tally) -> Figures
    ensures { result ≡ totals_by verdict t }
{
    let added = add(t.totals, t.figures);
    match verdict {
        Ok(()) => added.totals,
        Err(_) => t.totals,
    }
}

// After a plan that ends.
fn plan_ended(t: Tally, begun: bool) -> Tally
    ensures { result ≡ plan_ended t begun }
{
    let totals = totals_by(verdict_of(t, begun), t);
    tally_with(plan_text::next_line(t.plans), totals)
}

// ---- text

// Puts four figures and a line feed.
fn put_figures(out: &mut [u8], at: usize, f: Figures) -> usize
    requires { at + 84 ≤ length out.old }
    ensures { PutFew 84 result at (figures_text f) out.old out.new }
{
    let a = plan_text::put_number(out, at, f.slots, 32);
    let b = plan_text::put_number(out, a, f.members, 32);
    let c = plan_text::put_number(out, b, f.listed, 32);
    plan_text::put_number(out, c, f.apart, 10)
}

// Puts what comes of a plan.
fn put_verdict(out: &mut [u8], at: usize, verdict: Result<(), Stopped>, f: Figures) -> usize
    requires { at + 84 ≤ length out.old }
    ensures { PutFew 84 result at (verdict_text verdict f) out.old out.new }
{
    match verdict {
        Ok(()) => put_figures(out, at, f),
        Err(stopped) => plan_text::put_refusal(out, at, stopped.line, stopped.number),
    }
}

// Puts the line of a plan that ends.
fn put_plan(out: &mut [u8], at: usize, t: Tally, begun: bool) -> usize
    requires { at + 110 ≤ length out.old }
    ensures { PutFew 110 result at (end_text t begun) out.old out.new }
{
    let verdict = verdict_of(t, begun);
    let word = plan_text::put_word(out, at, b"plan ");
    let number = plan_text::put_number(out, word, plan_text::next_line(t.plans), 32);
    put_verdict(out, number, verdict, t.figures)
}

// Puts the line of the totals.
fn put_total(out: &mut [u8], at: usize, totals: Figures) -> usize
    requires { at + 90 ≤ length out.old }
    ensures { PutFew 90 result at (total_text totals) out.old out.new }
{
    let word = plan_text::put_word(out, at, b"total ");
    put_figures(out, word, totals)
}

// ---- bytes

// Before the first line.
pub fn start() -> Report
    ensures { result ≡ start_of }
{
    let tally = tally_with(0, NO_FIGURES);
    let part = plan_program::no_part();
    Report { tally, part }
}

// With one byte more of the next line.
fn with_byte(part: Part, byte: u8) -> Part
    ensures { result ≡ with_byte part byte }
{
    let at = part.length;
    if 121 <= at {
        return part;
    }
    let mut next = part;
    next.text[at] = byte;
    next.length = at + 1;
    next
}

// Whether what has come is the line that parts plans.
fn is_next(part: Part) -> bool
    ensures { result ≡ is_next (bytes_in part) }
{
    plan_line::same(b"next", &part.text[..part.length.min(121)])
}

// After the end of a line. Requires a plan that can go on.
fn after_line(t: Tally, part: Part) -> Tally
    requires { plan_sound t.plan ≡ true }
    ensures { result ≡ after_line_in t (bytes_in part) }
{
    if is_next(part) {
        return plan_ended(t, false);
    }
    line_done(t, part)
}

// Puts what is printed of a line.
fn put_line(out: &mut [u8], at: usize, t: Tally, part: Part) -> usize
    requires { at + 110 ≤ length out.old }
    ensures { PutFew 110 result at (line_text t (bytes_in part)) out.old out.new }
{
    if is_next(part) {
        return put_plan(out, at, t, false);
    }
    at
}

// After the end of the line that has come. Requires a plan that can go on.
fn line_ended(r: Report) -> Report
    requires { plan_sound r.tally.plan ≡ true }
    ensures { result ≡ line_ended r }
{
    let tally = after_line(r.tally, r.part);
    let mut part = r.part;
    part.length = 0;
    Report { tally, part }
}

// Takes a byte, and puts what is printed of it. Requires a plan that can go on, and room.
fn take_byte(r: Report, byte: u8, out: &mut [u8], at: usize) -> Taken
    requires { (plan_sound r.tally.plan ≡ true) × (at + 110 ≤ length out.old) }
    ensures { Took r byte at result out.old out.new }
{
    if byte != 10 {
        let part = with_byte(r.part, byte);
        let tally = r.tally;
        return Taken {
            report: Report { tally, part },
            at,
        };
    }
    let end = put_line(out, at, r.tally, r.part);
    Taken {
        report: line_ended(r),
        at: end,
    }
}

// Takes the bytes of a piece. Requires a plan that can go on, and room.
fn take_bytes(r: Report, input: &[u8], out: &mut [u8]) -> Taken
    requires { (plan_sound r.tally.plan ≡ true) × (110 * length input.now ≤ length out.old) }
    ensures { (result.report ≡ after r input.now) × (PutAt result.at 0 (text_of r input.now) out.old out.new) }
{
    let mut taken = Taken { report: r, at: 0 };
    for &byte in input {
        let report = taken.report;
        taken = take_byte(report, byte, out, taken.at);
    }
    taken
}

// Runs the lines that end in a piece of the input. It refuses by 4 and 9, and then does nothing.
pub fn feed(report: Report, input: &[u8], out: &mut [u8]) -> Fed
    ensures { fed_as result out.new ≡ fed_of report input.now out.old }
{
    if !plan_program::is_sound(report.tally.plan) {
        return Fed {
            report,
            written: Err(Refusal::Unsound),
        };
    }
    if out.len() / 110 < input.len() {
        return Fed {
            report,
            written: Err(Refusal::OutputShort),
        };
    }
    let taken = take_bytes(report, input, out);
    let next = taken.report;
    Fed {
        report: next,
        written: Ok(taken.at),
    }
}

// Puts the last plan's line and the totals. Requires room.
fn put_last(out: &mut [u8], t: Tally, begun: bool) -> usize
    requires { 200 ≤ length out.old }
    ensures { PutAt result 0 (end_text t begun ++ total_text (plan_ended t begun).totals) out.old out.new }
{
    let ended = plan_ended(t, begun);
    let at = put_plan(out, 0, t, begun);
    put_total(out, at, ended.totals)
}

// Ends the input. It refuses by 9, and then does nothing.
pub fn finish(report: Report, out: &mut [u8]) -> Result<usize, Refusal>
    ensures { (result, out.new) ≡ finished_of report out.old }
{
    if out.len() < 200 {
        return Err(Refusal::OutputShort);
    }
    Ok(put_last(out, report.tally, report.part.length != 0))
}
