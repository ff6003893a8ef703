// Inner: what the bench decides and has each record do (document 01, "The bench"), by value: a survey of a
// table taken record by record, the order for a command, a record after it, the members' sets. What is
// noted of a record is in bench_notes, the walks over the table are in bench_walks.
#![tactic(auto)]

mod orders;
mod records;
pub mod surveys;

ghost use Rattle.std.specs.Prelude.{◌≡◌, ◌<◌, ◌≤◌};
ghost use Rattle.bench_orders.specs.Survey.{surveyed, unseen, fine_table, far_from, member_seen, gathered, no_members};
ghost use Rattle.bench_orders.specs.Orders.{order_of, errand_of, carried};

use bench::{Command, Fate};
use cable::Cable;
use message::Reading;
use node_record::Held;
use node_steps::Said;
use orders::{look_order, off_order, restart_order, set_up_order, slot_order};
use records::{number_at, off_at, restart_at, step_at};
use refusal::Refusal;
use row::Row;
use surveys::{begun, seen};

// What a look over a table finds: whether each record stands in its place; the cable and slots of
// the first; the next sender's number and record; the nodes that are out; those whose row has the sender.
#[derive(Clone, Copy)]
pub struct Survey {
    pub fine: bool,
    pub cable: Cable,
    pub slots: u64,
    pub sender: u32,
    pub speaker: Held,
    pub out: u32,
    pub listers: u32,
}

// What is lent beside the table: whether the ledger and the counts of failure reports fit; the cable that
// set-up is asked for, and how many places its slot table was given with.
#[derive(Clone, Copy)]
pub struct Beside {
    pub ledger: bool,
    pub reports: bool,
    pub cable: Cable,
    pub places: usize,
}

// The sets of the members, the first `count` places of an array (there is no heap), and the greatest
// distance of two of them.
#[derive(Clone, Copy)]
pub struct Members {
    pub count: u32,
    pub sets: [u32; 32],
    pub greatest: u32,
}

// A slot that is to run: its number and sender, what comes of the message, what is read of it, which
// nodes miss it, and what it says and decides for those who hold the sender's row.
#[derive(Clone, Copy)]
pub struct Turn {
    pub slot: u64,
    pub sender: u32,
    pub fate: Fate,
    pub heard: Reading,
    pub missed: u32,
    pub said: Said,
    pub decided: u32,
}

// What each record is to do. A look, which has it do nothing, holds what is told of the next slot: the
// slots before it, its sender, what comes of its message. A refusal is one thing more to do, nothing, and
// goes to each record with the others (`carried`): no `Result` of the other five.
#[derive(Clone, Copy)]
pub enum Order {
    Refuse(Refusal),
    Start,
    Off(u32),
    Restart(u32),
    Slot(Turn),
    Look(u64, u32, Fate),
}

// An order, the cable that set-up is asked for, and the row of the next sender: `Order` holds no array.
#[derive(Clone, Copy)]
pub struct Errand {
    pub order: Order,
    pub cable: Cable,
    pub row: Row,
}

// A survey of nothing.
pub fn unseen() -> Survey
    ensures { result ≡ unseen }
{
    let v = node::NO_NODE;
    begun(false, v)
}

// The survey with the record at index i, the first of which gives cable and slots.
#[tactic(auto, unfolding(crate::specs::Survey::surveyed))]
pub fn surveyed(s: Survey, i: usize, v: Held) -> Survey
    ensures { result ≡ surveyed s i v }
{
    let before = if i == 0 { begun(true, v) } else { s };
    seen(before, i, v)
}

// Whether the table surveyed is sound, where it has so many records.
pub fn is_fine(s: Survey, size: usize) -> bool
    ensures { result ≡ fine_table s size }
{
    s.fine & (s.cable.n as usize == size)
}

// What a command has a table of so many records do, where so many bytes are lent for the pairs, and ledger
// and counts fit or not. The survey is made record by record and does not know how many there are, so the
// size stands beside it.
pub fn order_of(command: Command, s: Survey, size: usize, room: usize, beside: Beside) -> Order
    ensures { result ≡ order_of command s size room beside }
{
    match command {
        Command::SetUp(_) => set_up_order(size, beside),
        Command::Off(a) => off_order(a, s, size, beside.ledger),
        Command::Restart(a) => restart_order(a, s, size),
        Command::Slot(lost, missed, jobs) => slot_order(lost, missed, jobs, room, s, size, beside),
        Command::Look(lost) => look_order(lost, s, size),
    }
}

// An order with the row of the next sender and the cable that is lent beside the table.
pub fn sent_with(order: Order, s: Survey, beside: Beside) -> Errand
    ensures { result ≡ errand_of order s beside }
{
    let cable = beside.cable;
    let row = s.speaker.row;
    Errand { order, cable, row }
}

// The record at index i after an order.
#[tactic(auto, unfolding(crate::specs::Orders::carried_by))]
pub fn carried(errand: Errand, i: usize, v: Held) -> Held
    ensures { result ≡ carried errand i v }
{
    let order = errand.order;
    let cable = errand.cable;
    let row = errand.row;
    match order {
        Order::Refuse(_) => v,
        Order::Start => node_changes::starting(cable, number_at(i)),
        Order::Off(a) => off_at(a, v),
        Order::Restart(a) => restart_at(a, v),
        Order::Slot(turn) => step_at(turn, row, v),
        Order::Look(_, _, _) => v,
    }
}

// The greatest distance of a set from those gathered. Requires that they are not more than there is room for.
fn far_from(n: u32, set: u32, m: Members) -> u32
    requires { m.count ≤ 32 }
    ensures { result ≡ far_from n set m.sets m.count }
{
    let mut far: u32 = 0;
    for &other in &m.sets[..m.count as usize] {
        far = far.max(nodeset::distance(n, other, set));
    }
    far
}

// What is gathered with a member's set, which stands after the others. Requires room for it.
fn member_seen(n: u32, m: Members, set: u32) -> Members
    requires { m.count < 32 }
    ensures { result ≡ member_seen n m set }
{
    let far = far_from(n, set, m);
    let greatest = m.greatest.max(far);
    let mut sets = m.sets;
    sets[m.count as usize] = set;
    Members {
        count: m.count + 1,
        sets,
        greatest,
    }
}

// What is gathered with one record more.
#[tactic(auto, unfolding(crate::specs::Survey::gathered))]
pub fn gathered(m: Members, i: usize, v: Held) -> Members
    ensures { result ≡ gathered m i v }
{
    let state = v.state;
    if node_record::is_member(state) & (m.count < 32) {
        let row = v.row;
        return member_seen(v.cable.n, m, row_sets::nodes_in(row));
    }
    m
}

#[tactic(auto, unfolding(crate::specs::Survey::no_members))]
pub fn no_members() -> Members
    ensures { result ≡ no_members }
{
    Members {
        count: 0,
        sets: [0; 32],
        greatest: 0,
    }
}
