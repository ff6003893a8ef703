// The members as a row (document 02, request l): node numbers in slot order from place 1, with their
// count; unused places 0. The slot table holds the nodes in slot order, spare places 0. An inner
// layer: every row and table is taken as it is, and none is refused. Sets and rows are converted in
// row_sets; who is sponsored is in row_sponsors.
#![tactic(auto)]

ghost use Rattle.std.specs.Prelude.{◌≡◌, []};
ghost use Rattle.ring.specs.slot_table.Order.{same_order};
ghost use Rattle.row.specs.Rows.{row_for};
ghost use Rattle.row.specs.Inner.{has_row, without_row, with_row, rank_in, put_in, same_row, row_at, added, past};

use std::mem;

// Length and places, not a `Vec`: there is no heap. The slot table that a row goes by stands beside it, as
// part of a record's cable.
#[derive(Clone, Copy)]
pub struct Row {
    pub length: u32,
    pub nodes: [u8; 32],
}

// A place's number.
pub fn wide(x: u8) -> u32
    ensures { result ≡ x }
{
    u32::from(x)
}

// The empty row.
pub fn empty() -> Row
    ensures { result ≡ row_for [] }
{
    Row {
        length: 0,
        nodes: [0; 32],
    }
}

// Puts one member more at the end of a row that has so many, if asked for: how many it has then.
pub fn put(out: &mut [u8; 32], at: usize, m: u8, yes: bool) -> usize
    ensures { row_at result out.new ≡ added (row_at at out.old) m yes }
{
    if yes & (at < 32) {
        out[at] = m;
        return at + 1;
    }
    at
}

// The next place, if asked for.
pub fn past(p: usize, yes: bool) -> usize
    ensures { result ≡ past p yes }
{
    if yes & (p < 32) {
        return p + 1;
    }
    p
}

// Whether node x is in the row.
pub fn has(row: Row, x: u32) -> bool
    ensures { result ≡ has_row row x }
{
    1 <= x && x <= 32 && row.nodes.contains(&(x as u8))
}

// The row without node x: the members after it move up.
pub fn without(row: Row, x: u32) -> Row
    ensures { result ≡ without_row row x }
{
    let mut rest = [0u8; 32];
    let mut at = 0;
    for m in row.nodes {
        at = put(&mut rest, at, m, (m != 0) & (wide(m) != x));
    }
    Row {
        length: at as u32,
        nodes: rest,
    }
}

// Whether two rows are equal: length and places.
pub fn same(a: Row, b: Row) -> bool
    ensures { result ≡ same_row a b }
{
    (a.length == b.length) & (a.nodes == b.nodes)
}

// How many of the row speak before node x, from place 1 of the slot table on; 0 where x has no place, by
// the definition `rank_in`: no place is passed then.
pub fn rank(order: [u8; 32], row: Row, x: u32) -> usize
    ensures { result ≡ rank_in order row x }
{
    let mut p = 0;
    for m in order {
        if wide(m) == x {
            return p;
        }
        p = past(p, (m != 0) & (row.nodes[p] == m));
    }
    0
}

// The places with m put in at index p: those from there on move down, the last one goes.
fn put_in(nodes: [u8; 32], p: usize, m: u8) -> [u8; 32]
    ensures { result ≡ put_in p m nodes }
{
    let mut out = nodes;
    let mut moved = m;
    for i in p..32 {
        mem::swap(&mut out[i], &mut moved);
    }
    out
}

// The row with node x, at its place in slot order: after those that speak before it.
pub fn with(order: [u8; 32], row: Row, x: u32) -> Row
    ensures { result ≡ with_row order row x }
{
    let count = row.length as usize;
    if has(row, x) | (32 <= count) {
        return row;
    }
    if x == 0 {
        return row;
    }
    if 33 <= x {
        return row;
    }
    let nodes = row.nodes;
    let p = rank(order, row, x);
    let places = put_in(nodes, p, x as u8);
    Row {
        length: row.length + 1,
        nodes: places,
    }
}
