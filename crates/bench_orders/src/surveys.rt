// What a look over a table notes of one record, by value.
ghost use Rattle.std.specs.Prelude.{◌≡◌, ◌+◌, eqb};
ghost use Rattle.node_record.specs.Held.{setted};
ghost use Rattle.bench.specs.Table.{in_place};
ghost use Rattle.bench_orders.specs.Survey.{sender_after, begun, glimpsed, index_of, out_with, listers_with, seen};

use crate::Survey;
use node_record::Held;

// The sender of the slot that follows those of the record; 0 where its n is no ring's, by the definition
// `node_in`: no node has that number.
pub fn sender_after(v: Held) -> u32
    ensures { result ≡ sender_after v }
{
    let cable = v.cable;
    let speaker = ring::sender(cable, v.slots);
    match speaker {
        Ok(s) => s,
        Err(_) => 0,
    }
}

// A survey that has cable and slots of the record, and no record yet.
pub fn begun(fine: bool, v: Held) -> Survey
    ensures { result ≡ begun fine v }
{
    let sender = sender_after(v);
    let cable = v.cable;
    Survey {
        fine,
        cable,
        slots: v.slots,
        sender,
        speaker: v,
        out: 0,
        listers: 0,
    }
}

// Whether own is the number of the node at index i.
pub fn is_number_at(own: u32, i: usize) -> bool
    ensures { result ≡ eqb own (i + 1) }
{
    own != 0 && (own - 1) as usize == i
}

// Whether the record is sound and stands at index i of the table surveyed.
pub fn stands(s: Survey, i: usize, v: Held) -> bool
    ensures { result ≡ in_place s.cable s.slots (i + 1) (setted v) }
{
    let cable = v.cable;
    let first = s.cable;
    node_record::is_sound(v)
        & (cable::is_same_cable(cable, first) & ((v.slots == s.slots) & is_number_at(v.own, i)))
}

// The nodes that are out, with one record more.
fn out_with(out: u32, v: Held) -> u32
    ensures { result ≡ out_with out v }
{
    let state = v.state;
    nodeset::with_if(node_record::is_out(state), out, v.own)
}

// The nodes whose row has the sender, with one record more.
fn listers_with(listers: u32, sender: u32, v: Held) -> u32
    ensures { result ≡ listers_with listers sender v }
{
    let row = v.row;
    nodeset::with_if(row::has(row, sender), listers, v.own)
}

// The index of node x among so many records; that of the first where there is no such node.
pub fn index_of(x: u32, size: usize) -> usize
    ensures { result ≡ index_of x size }
{
    if x != 0 && x as usize <= size {
        x as usize - 1
    } else {
        0
    }
}

// What is found of the first record, the next sender's and another.
pub fn glimpsed(first: Held, speaker: Held, other: Held) -> Survey
    ensures { result ≡ glimpsed first speaker other }
{
    let sender = sender_after(first);
    let cable = first.cable;
    let out = out_with(0, other);
    Survey {
        fine: true,
        cable,
        slots: first.slots,
        sender,
        speaker,
        out,
        listers: 0,
    }
}

// The survey with the record at index i.
pub fn seen(s: Survey, i: usize, v: Held) -> Survey
    ensures { result ≡ seen s i v }
{
    let mut next = s;
    next.fine = s.fine & stands(s, i, v);
    next.out = out_with(s.out, v);
    next.listers = listers_with(s.listers, s.sender, v);
    if v.own == s.sender {
        next.speaker = v;
    }
    next
}
