// What an order does to one record, by value. Off, Restart and Slot are ordered only of a sound table,
// so the records are not tested again.
ghost use Rattle.std.specs.Prelude.{◌≡◌};
ghost use Rattle.node_changes.specs.Held.{numbered};
ghost use Rattle.bench_orders.specs.Orders.{number_at, off_at, restart_at, heard_at, step_at};

use crate::Turn;
use message::Reading;
use node_record::{Cause, Held};
use node_steps::Digest;
use refusal::Refusal;
use row::Row;

// The number of the node at index i, of the first 32.
pub fn number_at(i: usize) -> u32
    ensures { result ≡ number_at i }
{
    if 32 <= i {
        return 0;
    }
    i as u32 + 1
}

pub fn off_at(a: u32, v: Held) -> Held
    ensures { result ≡ off_at a v }
{
    if v.own != a {
        return v;
    }
    node_changes::out_for(Cause::SwitchedOff, v)
}

pub fn restart_at(a: u32, v: Held) -> Held
    ensures { result ≡ restart_at a v }
{
    if v.own != a {
        return v;
    }
    node_changes::fresh(v)
}

// What the record's node hears: nothing, if it misses the message.
fn heard_at(turn: Turn, v: Held) -> Reading
    ensures { result ≡ heard_at turn v }
{
    let heard = turn.heard;
    if nodeset::has(turn.missed, v.own) {
        return Err(Refusal::MessageLength);
    }
    heard
}

// The record with a slot count.
fn numbered(slot: u64, v: Held) -> Held
    ensures { result ≡ numbered slot v }
{
    let mut w = v;
    w.slots = slot;
    w
}

// The slot of a record, where the speaker holds this row.
pub fn step_at(turn: Turn, row: Row, v: Held) -> Held
    ensures { result ≡ step_at turn row v }
{
    let heard = heard_at(turn, v);
    let said = turn.said;
    let digest = Digest {
        row,
        said,
        decided: turn.decided,
    };
    node_slot::after_slot(turn.sender, heard, digest, numbered(turn.slot, v))
}
