// The cable: the numbers that set-up chooses for all nodes and the slot table, which of them are in range,
// and by what the others are refused (document 01, "The ring"; document 02, h, j and k). Who speaks and who
// sponsors whom is in ring.
#![tactic(auto)]

ghost use Rattle.std.specs.Prelude.{◌≡◌, ◌-◌};
ghost use Rattle.refusal.specs.Causes.{cause};
ghost use Rattle.cable.specs.Cable.{plain_cable, cable_with, same_cable, ring_size, node_number, lag_fits, sponsor_count, job_count, cable_fits, may_set_up, fault_of};

use refusal::Refusal;

// The numbers that set-up chooses for the whole cable: how many nodes are on it, how many others a member
// sponsors at the most, how many jobs a message reports on, and how many members before a sender it has
// not judged yet.
#[derive(Clone, Copy)]
pub struct Choices {
    pub n: u32,
    pub k: u32,
    pub m: u32,
    pub lag: u32,
}

// What holds for the whole cable: the numbers chosen, and which node speaks at each place. The numbers are
// fields of its own, as definitions and theorems name them (`cable.n`).
#[derive(Clone, Copy, PartialEq, Eq)]
pub struct Cable {
    pub n: u32,
    pub k: u32,
    pub m: u32,
    pub lag: u32,
    pub order: [u8; 32],
}

// The cable with these choices and the plain table.
pub fn plain_cable(choices: Choices) -> Cable
    ensures { result ≡ plain_cable choices }
{
    let order = slot_table::plain(choices.n);
    Cable {
        n: choices.n,
        k: choices.k,
        m: choices.m,
        lag: choices.lag,
        order,
    }
}

// The cable with these choices and this slot table.
pub fn cable_with(choices: Choices, slots: &[u8]) -> Cable
    ensures { result ≡ cable_with choices slots.now }
{
    let order = slot_table::kept(slots);
    Cable {
        n: choices.n,
        k: choices.k,
        m: choices.m,
        lag: choices.lag,
        order,
    }
}

// Whether two cables are the same. No `==`: its tests are those of the definition, and that of the slot
// tables is `slot_table`'s.
pub fn is_same_cable(a: Cable, b: Cable) -> bool
    ensures { result ≡ same_cable a b }
{
    let one = a.order;
    let other = b.order;
    (a.n == b.n)
        & ((a.k == b.k) & ((a.m == b.m) & ((a.lag == b.lag) & slot_table::is_same(one, other))))
}

// Whether a ring may have n nodes.
pub fn is_ring_size(n: u32) -> bool
    ensures { result ≡ ring_size n }
{
    3 <= n && n <= 32
}

// Whether x is a node of a ring of n.
pub fn is_node_number(n: u32, x: u32) -> bool
    ensures { result ≡ node_number n x }
{
    1 <= x && x <= n
}

// Whether the lag is 0 or 1.
pub fn is_lag(lag: u32) -> bool
    ensures { result ≡ lag_fits lag }
{
    lag <= 1
}

// Of two numbers, by how much the first is greater; 0 where it is not: the definitions' `-`, std's method.
pub fn less(a: u32, b: u32) -> u32
    ensures { result ≡ a - b }
{
    a.saturating_sub(b)
}

// Whether the cable's k is 2 to n - 1 less the lag.
pub fn is_sponsor_count(cable: Cable) -> bool
    ensures { result ≡ sponsor_count cable }
{
    let most = less(less(cable.n, 1), cable.lag);
    2 <= cable.k && cable.k <= most
}

// Whether m is 0 to 8.
pub fn is_job_count(m: u32) -> bool
    ensures { result ≡ job_count m }
{
    m <= 8
}

// Whether every choice is in range.
pub fn cable_fits(cable: Cable) -> bool
    ensures { result ≡ cable_fits cable }
{
    let order = cable.order;
    is_ring_size(cable.n)
        & (is_lag(cable.lag)
            & (is_sponsor_count(cable)
                & (is_job_count(cable.m) & slot_table::is_kept(cable.n, order))))
}

// Whether every choice is in range, where the slot table was given with so many places.
pub fn may_set_up(cable: Cable, places: usize) -> bool
    ensures { result ≡ may_set_up cable places }
{
    cable_fits(cable) & (places == cable.n as usize)
}

// By what a cable is refused that may not be set up: 1, 16, 2, 14, 17 or 18, the first in this order.
pub fn fault(cable: Cable, places: usize) -> Refusal
    ensures { result ≡ cause (fault_of cable places) }
{
    if !is_ring_size(cable.n) {
        return Refusal::RingSize;
    }
    if !is_lag(cable.lag) {
        return Refusal::Lag;
    }
    if !is_sponsor_count(cable) {
        return Refusal::SponsorCount;
    }
    if !is_job_count(cable.m) {
        return Refusal::JobCount;
    }
    if places != cable.n as usize {
        return Refusal::TableLength;
    }
    Refusal::TableNodes
}
