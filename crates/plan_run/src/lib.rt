// Inner: what a plan line does to a plan's bench (document 01, "The bench program"). The bench is 32
// rows, of which the first n are its table; a line is carried out on the table alone, which is lent. It
// is tested where a piece of the plan begins (`plan_program`), and not again for each line.
#![tactic(auto)]

ghost use Rattle.std.specs.Prelude.{◌≡◌, ◌≤◌, length};
ghost use Rattle.bench_orders.specs.Orders.{carried_from};
ghost use Rattle.plan_line.specs.Plan.{line_of, opening_of};
ghost use Rattle.plan_run.specs.Run.{act_of, no_rows, opened_of};
ghost use Rattle.plan_run.specs.Inner.{asked, asked_by, beside_by, beside_of, errand_by, errand_on, opening_act, order_by, outcome_on, told};

use bench::{Command, Outcome};
use bench_orders::{Beside, Errand, Order, Survey};
use bench_work::Work;
use cable::{Cable, Choices};
use node_record::Held;
use plan_line::Line;
use refusal::Refusal;

// What a line has the bench do: a call, or nothing where the line is refused.
pub type Act = Result<Command, Refusal>;

// The bench that line one sets up, the number of its nodes, and what there is to print: what
// specs/Run says of line one.
#[derive(Clone, Copy)]
pub struct Opened {
    pub n: u32,
    pub rows: [Held; 32],
    pub outcome: Outcome,
}

// Nothing is lent beside the table that could be amiss, and no cable is asked for.
const ALL_FIT: Beside = Beside {
    ledger: true,
    reports: true,
    cable: Cable {
        n: 0,
        k: 0,
        m: 0,
        lag: 0,
        order: [0; 32],
    },
    places: 0,
};

// Rows of no node.
pub fn no_rows() -> [Held; 32]
    ensures { result ≡ no_rows }
{
    [node::NO_NODE; 32]
}

// What a line after line one has the bench do.
fn act_of(line: Result<Line, Refusal>) -> Act
    ensures { result ≡ act_of line }
{
    Ok(match line? {
        Line::Ok => Command::Slot(false, 0, 0),
        Line::Lost => Command::Slot(true, 0, 0),
        Line::Miss(missed) => Command::Slot(false, missed, 0),
        Line::Off(a) => Command::Off(a),
        Line::On(a) => Command::Restart(a),
    })
}

// What a line after line one, given without its line feed, has a bench of n nodes do.
pub fn later_act(n: u32, line: &[u8]) -> Act
    ensures { result ≡ act_of (line_of n line.now) }
{
    act_of(plan_line::line_of(n, line))
}

// What line one, given without its line feed, has the bench do.
pub fn first_act(line: &[u8]) -> Act
    ensures { result ≡ opening_act (opening_of line.now) }
{
    let (n, k) = plan_line::opening_of(line)?;
    Ok(Command::SetUp(Choices { n, k, m: 0, lag: 0 }))
}

// The number of nodes that line one says; 0 where it is refused, by the definition `opened_by`.
pub fn first_size(line: &[u8]) -> u32
    ensures { result ≡ (opened_of line.now).n }
{
    let opening = plan_line::opening_of(line);
    match opening {
        Ok((n, _)) => n,
        Err(_) => 0,
    }
}

// The node that a command asks about: the one to be restarted; 0 where there is none, by the definition
// `asked_by`: no node has that number.
fn asked_by(command: Command) -> u32
    ensures { result ≡ asked_by command }
{
    match command {
        Command::SetUp(_) => 0,
        Command::Off(_) => 0,
        Command::Restart(a) => a,
        Command::Slot(_, _, _) => 0,
        Command::Look(_) => 0,
    }
}

fn asked(act: Act) -> u32
    ensures { result ≡ asked act }
{
    let Ok(command) = act else {
        return 0;
    };
    asked_by(command)
}

// What is lent beside the table: set-up is asked for with the plain table. Neither ledger nor counts are
// kept.
fn beside_by(command: Command) -> Beside
    ensures { result ≡ beside_by command }
{
    match command {
        Command::SetUp(choices) => {
            let cable = cable::plain_cable(choices);
            Beside {
                ledger: true,
                reports: true,
                cable,
                places: choices.n as usize,
            }
        }
        Command::Off(_) => ALL_FIT,
        Command::Restart(_) => ALL_FIT,
        Command::Slot(_, _, _) => ALL_FIT,
        Command::Look(_) => ALL_FIT,
    }
}

fn beside_of(act: Act) -> Beside
    ensures { result ≡ beside_of act }
{
    match act {
        Ok(command) => beside_by(command),
        Err(_) => ALL_FIT,
    }
}

// What each record is to do, with room for all pairs.
fn order_by(act: Act, s: Survey, size: usize, beside: Beside) -> Order
    ensures { result ≡ order_by act s size beside }
{
    match act {
        Ok(command) => bench_orders::order_of(command, s, size, 64, beside),
        Err(cause) => Order::Refuse(cause),
    }
}

fn errand_by(act: Act, s: Survey, size: usize) -> Errand
    ensures { result ≡ errand_by act s size }
{
    let beside = beside_of(act);
    let order = order_by(act, s, size, beside);
    bench_orders::sent_with(order, s, beside)
}

// What there is to print.
fn told(errand: Errand, work: Work) -> Outcome
    ensures { result ≡ told errand work }
{
    let order = errand.order;
    let reply = bench_work::reply_of(order, work);
    reply.outcome
}

// Carries a line out on a table that is taken as it is. Requires a record.
pub fn run(table: &mut [Held], act: Act) -> Outcome
    requires { 1 ≤ length table.old }
    ensures { (table.new ≡ carried_from (errand_on act table.old) 0 table.old) × (result ≡ outcome_on act table.old) }
{
    let size = table.len();
    let named = asked(act);
    let survey = bench_walks::glimpse(table, named);
    let errand = errand_by(act, survey, size);
    let work = bench_calls::carry(table, errand);
    told(errand, work)
}
