// The row of a set and the set of a row (document 02, request l), and which rows are sound beside a slot
// table. An inner layer: every row, set and table is taken as it is, and none is refused.
#![tactic(auto)]

ghost use Rattle.std.specs.Prelude.{◌≡◌, drop};
ghost use Rattle.row.specs.Rows.{as_row, blank, sound_row, nodes_in};

use row::Row;

// The set of the nodes in the row.
pub fn nodes_in(row: Row) -> u32
    ensures { result ≡ nodes_in row }
{
    let mut s = 0;
    for x in row.nodes {
        s = nodeset::with(s, row::wide(x));
    }
    s
}

// The row of a set.
pub fn as_row(order: [u8; 32], s: u32) -> Row
    ensures { result ≡ as_row order s }
{
    let mut out = [0u8; 32];
    let mut at = 0;
    for m in order {
        at = row::put(&mut out, at, m, nodeset::has(s, row::wide(m)));
    }
    Row {
        length: at as u32,
        nodes: out,
    }
}

// Whether the places from one on are 0.
fn is_blank(places: &[u8], from: usize) -> bool
    ensures { result ≡ blank (drop from places.now) }
{
    places.iter().skip(from).all(|&x| x == 0)
}

// Whether the row is sound in a ring of n with this slot table.
pub fn is_sound(n: u32, order: [u8; 32], row: Row) -> bool
    ensures { result ≡ sound_row n order row }
{
    let count = row.length as usize;
    let most = n.min(32) as usize;
    let clear = is_blank(&row.nodes, count);
    let mut p = 0;
    for &m in &order[..most] {
        p = row::past(p, (p < count) & (row.nodes[p] == m));
    }
    (count <= most) & ((p == count) & clear)
}
