// The slot table of a cable (document 02, request k): which node speaks at each place of a round. It is
// kept as 32 bytes, the node at place 1 first, spare places 0. An inner layer: every table is taken as
// it is, and by which number a wrong one is refused is in cable.
#![tactic(auto)]

ghost use Rattle.std.specs.Prelude.{◌≡◌, ◌-◌};
ghost use Rattle.slot_table.specs.Order.{node_at, nodes_at, is_order, spare_empty, is_kept, kept, plain, place, same_order};

// The node at place p; 0 where there is no such place, by the definition `node_at`: 0 is in no set.
pub fn node_at(order: [u8; 32], p: u32) -> u32
    ensures { result ≡ node_at order p }
{
    if p == 0 {
        return 0;
    }
    let i = (p - 1) as usize;
    if 32 <= i {
        return 0;
    }
    u32::from(order[i])
}

// The set of the nodes at the first n places.
fn nodes_at(n: u32, order: [u8; 32]) -> u32
    ensures { result ≡ nodes_at n order }
{
    let mut set = 0;
    for p in 0..n {
        set = nodeset::with(set, node_at(order, p + 1));
    }
    set
}

// Whether each of n nodes stands exactly once at the first n places.
pub fn is_order(n: u32, order: [u8; 32]) -> bool
    ensures { result ≡ is_order n order }
{
    n <= 32 && nodes_at(n, order) == nodeset::full(n)
}

// Whether the places after place n are 0.
fn spare_empty(n: u32, order: [u8; 32]) -> bool
    ensures { result ≡ spare_empty (32 - n) n order }
{
    order.iter().skip(n as usize).all(|&x| x == 0)
}

// Whether a record may keep this table for n nodes.
pub fn is_kept(n: u32, order: [u8; 32]) -> bool
    ensures { result ≡ is_kept n order }
{
    is_order(n, order) & spare_empty(n, order)
}

// The table as it is kept.
pub fn kept(order: &[u8]) -> [u8; 32]
    ensures { result ≡ kept order.now }
{
    let count = order.len().min(32);
    let mut kept = [0; 32];
    kept[..count].copy_from_slice(&order[..count]);
    kept
}

// The plain table 1 to n, as it is kept.
pub fn plain(n: u32) -> [u8; 32]
    ensures { result ≡ plain n }
{
    let count = n.min(32) as usize;
    let mut order = [0; 32];
    for i in 0..count {
        order[i] = (i + 1) as u8;
    }
    order
}

// The place of node x; 0 where that node has none, by the definition `place`: places count from 1.
pub fn place(order: [u8; 32], x: u32) -> u32
    ensures { result ≡ place order x }
{
    for p in 1..=32 {
        if node_at(order, p) == x {
            return p;
        }
    }
    0
}

// Whether two kept tables are the same. `==` by another name: its clause and must-fail edits hold the name.
pub fn is_same(a: [u8; 32], b: [u8; 32]) -> bool
    ensures { result ≡ same_order a b }
{
    a == b
}
