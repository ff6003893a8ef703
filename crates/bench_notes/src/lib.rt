// Inner: what the bench notes as a record changes (document 01, "The bench"), by value: the pairs of a node
// and a kind, those that left first; who left and who joined; the list, and whether all members hold it.
// What a record is to do is in bench_orders.
#![tactic(auto)]

mod kinds;

ghost use Rattle.std.specs.Prelude.{◌≡◌, ◌<◌, min};
ghost use Rattle.bench_notes.specs.Notes.{pushed, with_pair, no_pairs, in_group, with_one, grouped_to, ordered, moves_with, list_with, row_with, same_with, lists_with, noticed, no_notes};

use kinds::{kind_from, same_state};
use node_record::Held;
use row::Row;

// Pairs of a node and a kind, as bytes in an array: there is no heap.
#[derive(Clone, Copy)]
pub struct Pairs {
    pub count: u32,
    pub bytes: [u8; 64],
}

// The list of the records seen so far, as a set and as a row, which is empty where there is nobody; and
// whether all members among them hold that row.
#[derive(Clone, Copy)]
pub struct Lists {
    pub list: Option<u32>,
    pub row: Row,
    pub same: bool,
}

// The nodes that left the member state, and those that came to it.
#[derive(Clone, Copy)]
pub struct Moves {
    pub left: u32,
    pub joined: u32,
}

// What is noted while an order is carried out: whose state changed, who left and who joined, and the
// list afterwards.
#[derive(Clone, Copy)]
pub struct Notes {
    pub pairs: Pairs,
    pub moves: Moves,
    pub lists: Lists,
}

// The pairs with one more. Requires room for it.
fn pushed(p: Pairs, x: u8, kind: u8) -> Pairs
    requires { p.count < 32 }
    ensures { result ≡ pushed p x kind }
{
    let at = p.count as usize * 2;
    let mut q = p;
    q.bytes[at] = x;
    q.bytes[at + 1] = kind;
    q.count = p.count + 1;
    q
}

// The pairs with that of a record, if its state changed.
#[tactic(auto, unfolding(crate::specs::Notes::with_pair))]
fn with_pair(p: Pairs, before: Held, after: Held) -> Pairs
    ensures { result ≡ with_pair p before after }
{
    let a = before.state;
    let b = after.state;
    if same_state(a, b) {
        return p;
    }
    if (p.count < 32) & (before.own <= 32) {
        return pushed(p, before.own as u8, kind_from(a, b));
    }
    p
}

#[tactic(auto, unfolding(crate::specs::Notes::no_pairs))]
fn no_pairs() -> Pairs
    ensures { result ≡ no_pairs }
{
    Pairs {
        count: 0,
        bytes: [0; 64],
    }
}

// Whether a change of this kind is one of the group: of those that left, or of all others.
fn in_group(left: bool, kind: u8) -> bool
    ensures { result ≡ in_group left kind }
{
    if left { kind == 1 } else { kind != 1 }
}

// The pairs with one more, if it is of the group.
#[tactic(auto, unfolding(crate::specs::Notes::with_one))]
fn with_one(p: Pairs, left: bool, x: u8, kind: u8) -> Pairs
    ensures { result ≡ with_one left p x kind }
{
    if in_group(left, kind) & (p.count < 32) {
        return pushed(p, x, kind);
    }
    p
}

// The pairs with those of a group, of the first 32 of all.
fn grouped(p: Pairs, left: bool, all: Pairs) -> Pairs
    ensures { result ≡ grouped_to left all.bytes (min all.count 32) p }
{
    let mut q = p;
    for i in 0..all.count.min(32) as usize {
        q = with_one(q, left, all.bytes[i * 2], all.bytes[i * 2 + 1]);
    }
    q
}

// The pairs in their order: those that left, then all others.
#[tactic(auto, unfolding(crate::specs::Notes::ordered))]
pub fn ordered(p: Pairs) -> Pairs
    ensures { result ≡ ordered p }
{
    let left = grouped(no_pairs(), true, p);
    grouped(left, false, p)
}

// Who left and who joined, with one record more.
#[tactic(auto, unfolding(crate::specs::Notes::moves_with))]
fn moves_with(m: Moves, before: Held, after: Held) -> Moves
    ensures { result ≡ moves_with m before after }
{
    let a = before.state;
    let b = after.state;
    if same_state(a, b) {
        return m;
    }
    Moves {
        left: nodeset::with_if(node_record::is_member(a), m.left, before.own),
        joined: nodeset::with_if(node_record::is_member(b), m.joined, before.own),
    }
}

// The list, with one record more.
fn list_with(list: Option<u32>, v: Held) -> Option<u32>
    ensures { result ≡ list_with list v }
{
    let state = v.state;
    let row = v.row;
    match list {
        None => {
            if node_record::is_member(state) {
                Some(row_sets::nodes_in(row))
            } else {
                None
            }
        }
        Some(set) => Some(set),
    }
}

// The list as a row, with one record more.
fn row_with(list: Option<u32>, row: Row, v: Held) -> Row
    ensures { result ≡ row_with list row v }
{
    let state = v.state;
    let held = v.row;
    match list {
        None => {
            if node_record::is_member(state) {
                held
            } else {
                row
            }
        }
        Some(_) => row,
    }
}

// Whether a record is no member, or holds the list as far as it is known.
fn same_with(list: Option<u32>, row: Row, v: Held) -> bool
    ensures { result ≡ same_with list row v }
{
    let state = v.state;
    let held = v.row;
    if !node_record::is_member(state) {
        return true;
    }
    match list {
        Some(_) => row::same(row, held),
        None => true,
    }
}

// The list, and whether all members hold it, with one record more.
fn lists_with(lists: Lists, v: Held) -> Lists
    ensures { result ≡ lists_with lists v }
{
    let before = lists.list;
    let first = lists.row;
    let same = same_with(before, first, v);
    let list = list_with(before, v);
    let row = row_with(before, first, v);
    Lists {
        list,
        row,
        same: lists.same & same,
    }
}

// The notes with those of a record.
#[tactic(auto, unfolding(crate::specs::Notes::noticed))]
pub fn noticed(notes: Notes, before: Held, after: Held) -> Notes
    ensures { result ≡ noticed notes before after }
{
    let told = notes.pairs;
    let moved = notes.moves;
    let seen = notes.lists;
    let pairs = with_pair(told, before, after);
    let moves = moves_with(moved, before, after);
    let lists = lists_with(seen, after);
    Notes {
        pairs,
        moves,
        lists,
    }
}

pub fn no_notes() -> Notes
    ensures { result ≡ no_notes }
{
    let pairs = no_pairs();
    let moves = Moves { left: 0, joined: 0 };
    let row = row::empty();
    let lists = Lists {
        list: None,
        row,
        same: true,
    };
    Notes {
        pairs,
        moves,
        lists,
    }
}
