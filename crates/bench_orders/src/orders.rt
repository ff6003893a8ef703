// What each record of a table is to do, by value: the tests of each call, in their order.
ghost use Rattle.std.specs.Prelude.{◌≡◌, ◌<◌, ◌^◌, ◌-◌};
ghost use Rattle.bench_orders.specs.Orders.{set_up_order, off_order, restart_order, spoken_by, fate_by, turn_of, slot_order, look_order};

use crate::{Beside, Order, Survey, Turn, is_fine};
use bench::Fate;
use message::{Heard, Reading};
use node_record::Held;
use refusal::Refusal;

pub fn set_up_order(size: usize, beside: Beside) -> Order
    ensures { result ≡ set_up_order size beside }
{
    let cable = beside.cable;
    if !cable::may_set_up(cable, beside.places) {
        let cause = cable::fault(cable, beside.places);
        return Order::Refuse(cause);
    }
    if !beside.reports {
        return Order::Refuse(Refusal::Unsound);
    }
    if size != cable.n as usize {
        return Order::Refuse(Refusal::Unsound);
    }
    Order::Start
}

pub fn off_order(a: u32, s: Survey, size: usize, fits: bool) -> Order
    ensures { result ≡ off_order a s size fits }
{
    if !is_fine(s, size) {
        return Order::Refuse(Refusal::Unsound);
    }
    if !cable::is_node_number(s.cable.n, a) {
        return Order::Refuse(Refusal::NodeNumber);
    }
    if !fits {
        return Order::Refuse(Refusal::LedgerUnfit);
    }
    Order::Off(a)
}

pub fn restart_order(a: u32, s: Survey, size: usize) -> Order
    ensures { result ≡ restart_order a s size }
{
    if !is_fine(s, size) {
        return Order::Refuse(Refusal::Unsound);
    }
    if !cable::is_node_number(s.cable.n, a) {
        return Order::Refuse(Refusal::NodeNumber);
    }
    if !nodeset::has(s.out, a) {
        return Order::Refuse(Refusal::NotOut);
    }
    Order::Restart(a)
}

// What is read of the speaker's message.
pub fn spoken_by(lost: bool, v: Held) -> Reading
    ensures { result ≡ spoken_by lost v }
{
    if lost {
        return Err(Refusal::MessageLength);
    }
    if !node_sending::sends(v) {
        return Err(Refusal::MessageLength);
    }
    Ok(Heard {
        acknowledgements: node_sending::bits_sent(v),
        return_bit: node_sending::return_sent(v),
    })
}

// What comes of the speaker's message.
pub fn fate_of(lost: bool, v: Held) -> Fate
    ensures { result ≡ fate_by lost v }
{
    let state = v.state;
    if !node_sending::sends(v) {
        return Fate::Silent;
    }
    if lost {
        return Fate::Lost;
    }
    if node_record::is_member(state) {
        return Fate::Sent;
    }
    Fate::Knock
}

// The slot that follows those of the table surveyed. Requires that a u64 counts it.
fn turn_of(lost: bool, missed: u32, s: Survey) -> Turn
    requires { s.slots < 2 ^ 64 - 1 }
    ensures { result ≡ turn_of lost missed s }
{
    let speaker = s.speaker;
    let fate = fate_of(lost, speaker);
    let heard = spoken_by(lost, speaker);
    let cable = speaker.cable;
    let row = speaker.row;
    let digest = node_steps::digest_of(s.sender, heard, cable, row);
    let said = digest.said;
    Turn {
        slot: s.slots + 1,
        sender: s.sender,
        fate,
        heard,
        missed,
        said,
        decided: digest.decided,
    }
}

pub fn slot_order(
    lost: bool,
    missed: u32,
    jobs: u8,
    room: usize,
    s: Survey,
    size: usize,
    beside: Beside,
) -> Order
    ensures { result ≡ slot_order lost missed jobs room s size beside }
{
    if !is_fine(s, size) {
        return Order::Refuse(Refusal::Unsound);
    }
    if !beside.reports {
        return Order::Refuse(Refusal::Unsound);
    }
    if !nodeset::is_within(s.cable.n, missed) {
        return Order::Refuse(Refusal::NodeNumber);
    }
    if !beside.ledger {
        return Order::Refuse(Refusal::LedgerUnfit);
    }
    if node_record::LIMIT <= s.slots {
        return Order::Refuse(Refusal::SlotLimit);
    }
    if !message::jobs_within(s.cable.m, jobs) {
        return Order::Refuse(Refusal::SpareBit);
    }
    if room < 64 {
        return Order::Refuse(Refusal::OutputShort);
    }
    let turn = turn_of(lost, missed, s);
    Order::Slot(turn)
}

pub fn look_order(lost: bool, s: Survey, size: usize) -> Order
    ensures { result ≡ look_order lost s size }
{
    let speaker = s.speaker;
    if !is_fine(s, size) {
        return Order::Refuse(Refusal::Unsound);
    }
    let fate = fate_of(lost, speaker);
    Order::Look(s.slots, s.sender, fate)
}
