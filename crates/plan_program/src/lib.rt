// The bench program but for reading and writing (document 01, "The bench program"): a plan text comes
// in pieces, and what is printed of it goes into lent bytes. `feed` runs the lines that end in a piece,
// `finish` ends the text, `print_plan` takes it all at once.
#![tactic(auto)]

ghost use Rattle.std.specs.Prelude.{◌≡◌, true, false, ◌++◌, [], ◌+◌, ◌≤◌, ◌*◌, leb, length, take};
ghost use Rattle.bench.specs.Table.{table_sound};
ghost use Rattle.bench_by_value.specs.ByValue.{table_of};
ghost use Rattle.plan_text.specs.Text.{PutAt};
ghost use Rattle.plan_program.specs.Program.{after_line, end_text, is_refused, may_end, no_plan, text_of};
ghost use Rattle.plan_program.specs.Calls.{bytes_in, fed_as, fed_of, finished_of, part_in, part_of, plan_sound, printed_in, run_piece};
ghost use Rattle.plan_program.specs.Inner.{act_in, after_in, begun_of, came_of, end_of, lines_after, outcome_after, over_after, rows_for, size_after, size_of, sought, with_line, Goes, Told};

use bench::{Command, Outcome};
use node_record::Held;
use plan_run::Act;
use refusal::Refusal;

// A plan as far as its lines have been run: how many, the bench (the first n rows are its table),
// whether a line was refused, and what came of the last one.
#[derive(Clone, Copy)]
pub struct Plan {
    pub lines: u64,
    pub n: u32,
    pub rows: [Held; 32],
    pub over: bool,
    pub outcome: Outcome,
}

// What has come of the next line: its first 121 bytes at the most, in an array, since there is no heap. No
// longer line is readable.
#[derive(Clone, Copy)]
pub struct Part {
    pub length: usize,
    pub text: [u8; 121],
}

// Where the lines of a piece stand: the plan but for its rows, and how many bytes are printed; the next
// line, whether it ends in the piece, what it has the bench do, the number of nodes after it, and the
// place after its end.
#[derive(Clone, Copy)]
struct Going {
    lines: u64,
    n: u32,
    over: bool,
    outcome: Outcome,
    held: usize,
    part: Part,
    more: bool,
    act: Act,
    size: u32,
    at: usize,
}

// What came of a piece that was run: `count` bytes are printed.
#[derive(Clone, Copy)]
struct Ahead {
    plan: Plan,
    part: Part,
    count: usize,
}

// What came of a piece. Where it is refused, plan and part are those that were passed.
#[derive(Clone, Copy)]
pub struct Fed {
    pub plan: Plan,
    pub part: Part,
    pub written: Result<usize, Refusal>,
}

fn is_refused(outcome: Outcome) -> bool
    ensures { result ≡ is_refused outcome }
{
    match outcome {
        Outcome::Refused(_) => true,
        Outcome::Slot(_, _, _, _, _) => false,
        Outcome::Quiet => false,
    }
}

// The next line with more of its bytes; what stands after them is as it was.
fn longer(part: Part, bytes: &[u8]) -> Part
    ensures { result ≡ part_in part.text (take 121 (bytes_in part ++ bytes.now)) }
{
    let mut text = part.text;
    let start = part.length.min(121);
    let count = bytes.len().min(121 - start);
    text[start..start + count].copy_from_slice(&bytes[..count]);
    Part {
        length: start + count,
        text,
    }
}

// Nothing of the next line.
pub fn no_part() -> Part
    ensures { result ≡ part_of [] }
{
    Part {
        length: 0,
        text: [0; 121],
    }
}

// The same bytes of the next line, and zeros after them.
fn clean(part: Part) -> Part
    ensures { result ≡ part_of (bytes_in part) }
{
    longer(no_part(), &part.text[..part.length.min(121)])
}

// A plan before line one.
pub fn no_plan() -> Plan
    ensures { result ≡ no_plan }
{
    let rows = plan_run::no_rows();
    Plan {
        lines: 0,
        n: 0,
        rows,
        over: false,
        outcome: Outcome::Quiet,
    }
}

// What a line, given as its bytes, has the bench do. After the end of the run it is refused, which leaves
// the table as it is, and nothing is printed of it (`outcome_after`).
fn act_of(lines: u64, n: u32, over: bool, text: &[u8]) -> Act
    ensures { result ≡ act_in lines n over text.now }
{
    if over {
        return Err(Refusal::PlanLine);
    }
    if lines == 0 {
        return plan_run::first_act(text);
    }
    plan_run::later_act(n, text)
}

// The number of nodes after the line.
fn size_after(lines: u64, n: u32, over: bool, text: &[u8]) -> u32
    ensures { result ≡ size_after lines n over text.now }
{
    if over || lines != 0 {
        return n;
    }
    plan_run::first_size(text)
}

// The lines run after the line.
fn lines_after(lines: u64, over: bool) -> u64
    ensures { result ≡ lines_after lines over }
{
    if over {
        return lines;
    }
    plan_text::next_line(lines)
}

// Whether the run is over after the line.
fn over_after(over: bool, outcome: Outcome) -> bool
    ensures { result ≡ over_after over outcome }
{
    over || is_refused(outcome)
}

// The place after the bytes that were written at a place.
fn end_of(at: usize, written: Result<usize, Refusal>) -> usize
    ensures { result ≡ end_of at written }
{
    let Ok(count) = written else {
        return at;
    };
    if count <= usize::MAX - at {
        at + count
    } else {
        at
    }
}

// Puts what there is to print of a line.
fn put(out: &mut [u8], at: usize, number: u64, outcome: Outcome) -> usize
    requires { at + 80 ≤ length out.old }
    ensures { PutAt result at (text_of number outcome) out.old out.new }
{
    match outcome {
        Outcome::Quiet => at,
        Outcome::Slot(slot, sender, fate, shown, distance) => {
            end_of(
                at,
                plan_text::slot_line(out, at, slot, sender, fate, shown, distance),
            )
        }
        Outcome::Refused(cause) => end_of(
            at,
            plan_text::refusal_line(out, at, number, refusal::number(cause)),
        ),
    }
}

// The piece before its first line is read.
fn begun(plan: Plan, part: Part) -> Going
    ensures { result ≡ begun_of plan part }
{
    Going {
        lines: plan.lines,
        n: plan.n,
        over: plan.over,
        outcome: plan.outcome,
        held: 0,
        part,
        more: false,
        act: Err(Refusal::PlanLine),
        size: plan.n,
        at: 0,
    }
}

// With the next line, which has ended or not, and the place after its end.
fn with_line(g: Going, part: Part, more: bool, at: usize) -> Going
    ensures { result ≡ with_line g part more at }
{
    let text = &part.text[..part.length.min(121)];
    let act = act_of(g.lines, g.n, g.over, text);
    let size = size_after(g.lines, g.n, g.over, text);
    Going {
        lines: g.lines,
        n: g.n,
        over: g.over,
        outcome: g.outcome,
        held: g.held,
        part,
        more,
        act,
        size,
        at,
    }
}

// Reads the next line. Requires that it begins in the input.
fn seek(input: &[u8], g: Going) -> Going
    requires { g.at ≤ length input.now }
    ensures { result ≡ sought input.now g }
{
    let end = plan_line::part_end(input, g.at, 10);
    let part = longer(g.part, &input[g.at..end]);
    with_line(g, part, end < input.len(), end + 1)
}

// What there is to print of the line: nothing after the end of the run.
fn outcome_after(over: bool, outcome: Outcome) -> Outcome
    ensures { result ≡ outcome_after over outcome }
{
    if over { Outcome::Quiet } else { outcome }
}

// After the line, of which so much was printed.
fn after(g: Going, lines: u64, outcome: Outcome, held: usize) -> Going
    ensures { result ≡ after_in g lines outcome held }
{
    let over = over_after(g.over, outcome);
    Going {
        lines,
        n: g.size,
        over,
        outcome,
        held,
        part: no_part(),
        more: g.more,
        act: g.act,
        size: g.size,
        at: g.at,
    }
}

// Puts what there is to print of the line that the bench carried out.
fn tell(out: &mut [u8], g: Going, outcome: Outcome) -> Going
    requires { g.held + 80 ≤ length out.old }
    ensures { Told g outcome result out.old out.new }
{
    let lines = lines_after(g.lines, g.over);
    let outcome = outcome_after(g.over, outcome);
    let held = put(out, g.held, lines, outcome);
    after(g, lines, outcome, held)
}

// How many rows the next line is carried out on: one at least.
fn size_of(g: Going) -> usize
    ensures { result ≡ size_of g.size }
{
    g.size.clamp(1, 32) as usize
}

// What came of the piece.
fn came(rows: [Held; 32], g: Going) -> Ahead
    ensures { result ≡ came_of rows g }
{
    Ahead {
        plan: Plan {
            lines: g.lines,
            n: g.n,
            rows,
            over: g.over,
            outcome: g.outcome,
        },
        part: g.part,
        count: g.held,
    }
}

// The rows that the lines run on: line one sets its bench up on rows of no node.
fn rows_for(plan: Plan, g: Going) -> [Held; 32]
    ensures { result ≡ rows_for plan g.more }
{
    if !plan.over && plan.lines == 0 && g.more {
        plan_run::no_rows()
    } else {
        plan.rows
    }
}

// Runs the lines that end in the input; the rows of the bench are lent to each. Requires a plan that can
// go on, and room.
fn run_lines(plan: Plan, part: Part, input: &[u8], out: &mut [u8]) -> Ahead
    requires { (plan_sound plan ≡ true) × (80 * length input.now ≤ length out.old) }
    ensures { Goes (run_piece plan (bytes_in part) input.now) (length input.now) out.old result out.new }
{
    let mut g = seek(input, begun(plan, part));
    let mut rows = rows_for(plan, g);
    // No `for`: a turn takes a line, of any length.
    while g.more {
        let size = size_of(g);
        let outcome = plan_run::run(&mut rows[..size], g.act);
        let told = tell(out, g, outcome);
        g = seek(input, told);
    }
    came(rows, g)
}

// Inner: runs the line that has come, as if it had ended. Requires a plan that can go on.
pub fn run_line(plan: Plan, part: Part) -> Plan
    requires { plan_sound plan ≡ true }
    ensures { result ≡ after_line plan (bytes_in part) }
{
    let mut out = [0u8; 80];
    run_lines(plan, part, b"\n", &mut out).plan
}

// Whether the table of n rows is sound: a look is not refused.
fn is_table(n: u32, rows: [Held; 32]) -> bool
    ensures { result ≡ table_sound (table_of n rows) }
{
    let mut ledger = [[0u64; 3]; 1];
    let mut counts = [[[0u64; 8]; 32]; 1];
    let mut pairs = [0u8; 64];
    let slots = [0u8; 1];
    let look = Command::Look(false);
    let ran = bench_by_value::call(&mut ledger, &mut counts, &mut pairs, &slots, rows, n, look);
    let outcome = ran.outcome;
    !is_refused(outcome)
}

// Whether a plan can go on: its bench, where it has one, is sound.
#[tactic(auto, unfolding(crate::specs::Calls::plan_sound))]
pub fn is_sound(plan: Plan) -> bool
    ensures { result ≡ plan_sound plan }
{
    plan.over || plan.lines == 0 || is_table(plan.n, plan.rows)
}

// Whether there are 80 bytes for each byte.
fn has_room(bytes: usize, room: usize) -> bool
    ensures { result ≡ leb (80 * bytes) room }
{
    bytes <= room / 80
}

// Runs the lines that end in a piece of the input. It refuses by 4 and 9, and then does nothing.
pub fn feed(plan: Plan, part: Part, input: &[u8], out: &mut [u8]) -> Fed
    ensures { fed_as result out.new ≡ fed_of plan part input.now out.old }
{
    if !is_sound(plan) {
        return Fed {
            plan,
            part,
            written: Err(Refusal::Unsound),
        };
    }
    if !has_room(input.len(), out.len()) {
        return Fed {
            plan,
            part,
            written: Err(Refusal::OutputShort),
        };
    }
    let ran = run_lines(plan, part, input, out);
    let after = ran.plan;
    let rest = clean(ran.part);
    Fed {
        plan: after,
        part: rest,
        written: Ok(ran.count),
    }
}

// Whether the input may end: not before a line, and not within one.
fn may_end(plan: Plan, part: Part) -> bool
    ensures { result ≡ may_end plan (bytes_in part) }
{
    plan.over || (plan.lines != 0 && part.length == 0)
}

// Puts what there is to print where the input ends.
fn put_end(out: &mut [u8], at: usize, plan: Plan, part: Part) -> usize
    requires { at + 80 ≤ length out.old }
    ensures { PutAt result at (end_text plan (bytes_in part)) out.old out.new }
{
    if may_end(plan, part) {
        return at;
    }
    put(
        out,
        at,
        plan_text::next_line(plan.lines),
        Outcome::Refused(Refusal::PlanLine),
    )
}

// Ends the input. It refuses by 9, and then does nothing.
pub fn finish(plan: Plan, part: Part, out: &mut [u8]) -> Result<usize, Refusal>
    ensures { (result, out.new) ≡ finished_of plan (bytes_in part) out.old }
{
    if out.len() < 80 {
        return Err(Refusal::OutputShort);
    }
    Ok(put_end(out, 0, plan, part))
}

// Prints a whole plan text. It refuses by 9, and then does nothing.
pub fn print_plan(input: &[u8], out: &mut [u8]) -> Result<usize, Refusal>
    ensures { (result, out.new) ≡ printed_in input.now out.old }
{
    if out.len() / 80 <= input.len() {
        return Err(Refusal::OutputShort);
    }
    let ran = run_lines(no_plan(), no_part(), input, out);
    let plan = ran.plan;
    let part = ran.part;
    Ok(put_end(out, ran.count, plan, part))
}
