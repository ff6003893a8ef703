// The calls on a node record (document 01): set-up, one slot, sending, off and restart. A record is
// held with its set as a row (document 02, request l). It goes in by value and comes back beside the
// answer; every record is taken, and one that is not sound is refused.
#![tactic(auto)]

ghost use Rattle.std.specs.Prelude.{◌≡◌, true};
ghost use Rattle.cable.specs.Cable.{ring_size};
ghost use Rattle.node_record.specs.Held.{rowed, setted};
ghost use Rattle.node.specs.Calls.{its_turn, no_node, set_up_of, send_of};
ghost use Rattle.node.specs.Held.{held_as, beside, start_held, off_held, restart_held, step_held, counted_held, slot_held, setted_of};
ghost use Rattle.node.specs.Inner.{hears_held, reporter_held};

use cable::{Cable, Choices};
use message::{Reading, Received};
use node_record::{Cause, Held, Node, State, Window};
use refusal::Refusal;
use row::Row;

// The record after a call; on a refusal it is the record that came, or none of a node where set-up
// is refused. No `Result` of a record: clauses of the theorem `as_rows` (`off-refused` and its like) speak of
// the record that comes back with a refusal.
#[derive(Clone, Copy)]
pub struct Stepped {
    pub node: Held,
    pub answer: Result<(), Refusal>,
}

// What came of a call on a record and on the counts of failure reports beside it (document 02, h).
#[derive(Clone, Copy)]
pub struct Counted {
    pub stepped: Stepped,
    pub counts: [[u64; 8]; 32],
}

// A record of no node: it comes with a refused set-up.
pub const NO_NODE: Held = Held {
    cable: Cable {
        n: 0,
        k: 0,
        m: 0,
        lag: 0,
        order: [0; 32],
    },
    own: 0,
    slots: 0,
    state: State::Out(Cause::SwitchedOff),
    row: Row {
        length: 0,
        nodes: [0; 32],
    },
    present: 0,
    returning: 0,
    return_heard: false,
    yes_heard: false,
    listening: Window {
        done: 0,
        heard: 0,
        shortest: 0,
        return_seen: false,
        last: 0,
    },
};

// The record of node `own` at the common start, where the slot table was given with so many places.
// Refuses by 1, 16, 2, 14, 17, 18 and 3, in this order.
fn started(cable: Cable, places: usize, own: u32) -> Stepped
    ensures { result ≡ held_as (rowed no_node) (set_up_of cable places own) }
{
    if !cable::may_set_up(cable, places) {
        let cause = cable::fault(cable, places);
        return Stepped {
            node: NO_NODE,
            answer: Err(cause),
        };
    }
    if !cable::is_node_number(cable.n, own) {
        return Stepped {
            node: NO_NODE,
            answer: Err(Refusal::NodeNumber),
        };
    }
    let v = node_changes::starting(cable, own);
    Stepped {
        node: v,
        answer: Ok(()),
    }
}

// The record of node `own` at the common start, and no reports heard. Refuses by 1, 16, 2, 14, 17, 18 and
// 3, in this order.
pub fn set_up(choices: Choices, slots: &[u8], own: u32) -> Counted
    ensures { result ≡ start_held choices slots.now own }
{
    let cable = cable::cable_with(choices, slots);
    let stepped = started(cable, slots.len(), own);
    with_counts(stepped, node_reports::NO_REPORTS)
}

// Switches the node off. Refuses by 4.
pub fn off(v: Held) -> Stepped
    ensures { result ≡ off_held v }
{
    if !node_record::is_sound(v) {
        return Stepped {
            node: v,
            answer: Err(Refusal::Unsound),
        };
    }
    let w = node_changes::out_for(Cause::SwitchedOff, v);
    Stepped {
        node: w,
        answer: Ok(()),
    }
}

// Restarts a node that is out: it listens. Refuses by 4 and 11.
#[tactic(auto, unfolding(crate::specs::Calls::restart_of))]
pub fn restart(v: Held) -> Stepped
    ensures { result ≡ restart_held v }
{
    if !node_record::is_sound(v) {
        return Stepped {
            node: v,
            answer: Err(Refusal::Unsound),
        };
    }
    let state = v.state;
    if !node_record::is_out(state) {
        return Stepped {
            node: v,
            answer: Err(Refusal::NotOut),
        };
    }
    let w = node_changes::fresh(v);
    Stepped {
        node: w,
        answer: Ok(()),
    }
}

// The record after a slot in which this was read; any refused reading is nothing heard. Refuses by 4 and 5.
fn after_step(heard: Reading, v: Held) -> Stepped
    ensures { result ≡ step_held heard v }
{
    if !node_record::is_sound(v) {
        return Stepped {
            node: v,
            answer: Err(Refusal::Unsound),
        };
    }
    if node_record::LIMIT <= v.slots {
        return Stepped {
            node: v,
            answer: Err(Refusal::SlotLimit),
        };
    }
    let cable = v.cable;
    let speaker = ring::sender(cable, v.slots);
    // A sound record's n is a ring's size, so the sender is never refused.
    let Ok(s) = speaker else {
        return Stepped {
            node: v,
            answer: Err(Refusal::Unsound),
        };
    };
    let mut counted = v;
    counted.slots = v.slots + 1;
    let row = v.row;
    let digest = node_steps::digest_of(s, heard, cable, row);
    let w = node_slot::after_slot(s, heard, digest, counted);
    Stepped {
        node: w,
        answer: Ok(()),
    }
}

// Whether a report of the slot's sender counts for the node.
fn hears_report(s: u32, heard: Reading, v: Held) -> bool
    ensures { result ≡ hears_held s heard v }
{
    let row = v.row;
    (s != v.own) & (heard.is_ok() & row::has(row, s))
}

// Whose job byte counts in the next slot; 0 for nobody's, by the definition `reporter_in`: 0 leaves the
// counts (`counts_with`). Requires a ring's size.
fn reporter(heard: Reading, v: Held) -> u32
    requires { ring_size v.cable.n ≡ true }
    ensures { result ≡ reporter_held heard v }
{
    let cable = v.cable;
    let speaker = ring::sender(cable, v.slots);
    // Never refused, by what is required.
    let Ok(s) = speaker else {
        return 0;
    };
    if hears_report(s, heard, v) {
        return s;
    }
    0
}

// One slot, in which the reader found this in the bytes heard; any refused reading is nothing heard.
// It takes every reading, also one that no bytes give. Refuses by 4 and 5.
pub fn step(received: Received, v: Held, counts: [[u64; 8]; 32]) -> Counted
    ensures { result ≡ counted_held received v counts }
{
    if !node_reports::counts_within(counts, v.slots) {
        let refused = Stepped {
            node: v,
            answer: Err(Refusal::Unsound),
        };
        return with_counts(refused, counts);
    }
    let reading = received.reading;
    let stepped = after_step(reading, v);
    if stepped.answer.is_err() {
        return with_counts(stepped, counts);
    }
    let after = node_reports::counts_with(counts, reporter(reading, v), received.jobs);
    with_counts(stepped, after)
}

// One slot, in which these bytes are heard: none where nothing is. Refuses by 4 and 5.
pub fn slot(bytes: &[u8], v: Held, counts: [[u64; 8]; 32]) -> Counted
    ensures { result ≡ slot_held bytes.now v counts }
{
    step(message::read(v.cable.k, v.cable.m, bytes), v, counts)
}

// Whether the next slot is this node's and it sends there. An inner function: requires a ring's size.
fn its_turn(v: Held) -> bool
    requires { ring_size v.cable.n ≡ true }
    ensures { result ≡ its_turn (setted v) }
{
    let cable = v.cable;
    let speaker = ring::sender(cable, v.slots);
    // Never refused, by what is required.
    let Ok(s) = speaker else {
        return false;
    };
    (s == v.own) & node_sending::sends(v)
}

// Writes what the node sends in the next slot, if that is its own, with this job byte, to the start of
// out, and leaves the bytes after it. Refuses by 4, 5, 8, 10 and 9, in this order, and then writes
// nothing.
pub fn send(v: Held, jobs: u8, out: &mut [u8]) -> Result<usize, Refusal>
    ensures { (result, out.new) ≡ send_of (setted v) jobs out.old }
{
    if !node_record::is_sound(v) {
        return Err(Refusal::Unsound);
    }
    if node_record::LIMIT <= v.slots {
        return Err(Refusal::SlotLimit);
    }
    if !message::jobs_within(v.cable.m, jobs) {
        return Err(Refusal::SpareBit);
    }
    if !its_turn(v) {
        return Err(Refusal::NotItsSlot);
    }
    message::write(
        v.cable.k,
        v.cable.m,
        node_sending::bits_sent(v),
        node_sending::return_sent(v),
        node_sending::jobs_sent(jobs, v),
        out,
    )
}

// A stepped record with its counts beside it.
pub fn with_counts(stepped: Stepped, counts: [[u64; 8]; 32]) -> Counted
    ensures { result ≡ beside stepped counts }
{
    Counted { stepped, counts }
}

// The counts beside a stepped record.
pub fn counts_of(c: Counted) -> [[u64; 8]; 32]
    ensures { result ≡ c.counts }
{
    c.counts
}

// ---- the record of the rules

// The record that a held one stands for (`node_record::as_row` is the way back). Refuses by 4.
pub fn as_set(v: Held) -> Result<Node, Refusal>
    ensures { result ≡ setted_of v }
{
    if !node_record::is_sound(v) {
        return Err(Refusal::Unsound);
    }
    let cable = v.cable;
    let state = v.state;
    let row = v.row;
    let set = row_sets::nodes_in(row);
    let listening = v.listening;
    Ok(Node {
        cable,
        own: v.own,
        slots: v.slots,
        state,
        set,
        present: v.present,
        returning: v.returning,
        return_heard: v.return_heard,
        yes_heard: v.yes_heard,
        listening,
    })
}
