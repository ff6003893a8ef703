// Functions of nodeset, cable and ring for callers in Rust and C, which take and give numbers and lend the
// slot table as bytes: those that the comparison with the model calls, and not those that make or test a
// whole cable. Each answers what the function of its name does; an answer that is an enum is one
// number. Every slot table is taken as it is, also one with too few places: at a place that it does not
// have stands node 0.
#![tactic(auto)]

ghost use Rattle.std.specs.Prelude.{◌≡◌, ◌+◌};
ghost use Rattle.nodeset.specs.Sets.{has, with, without, union, full, within, subset, size, distance, run};
ghost use Rattle.cable.specs.Cable.{cable_with, lagging_cable, ring_size, node_number, sponsor_count};
ghost use Rattle.ring.specs.Ring.{ks};
ghost use Rattle.ring.specs.Answers.{sender_of, before_of, sponsored_of, decided_of};
ghost use Rattle.ring_c.specs.Numbers.{choices_of, speaker_number, found_number, back_number, lookup_number, lookup_back};

use cable::{Cable, Choices};
use refusal::Refusal;
use ring::Found;

// ---- Sets

#[unsafe(no_mangle)]
pub extern "C" fn nodeset_has(s: u32, x: u32) -> bool
    ensures { result ≡ has s x }
{
    nodeset::has(s, x)
}

#[unsafe(no_mangle)]
pub extern "C" fn nodeset_with(s: u32, x: u32) -> u32
    ensures { result ≡ with s x }
{
    nodeset::with(s, x)
}

#[unsafe(no_mangle)]
pub extern "C" fn nodeset_without(s: u32, x: u32) -> u32
    ensures { result ≡ without s x }
{
    nodeset::without(s, x)
}

#[unsafe(no_mangle)]
pub extern "C" fn nodeset_union(a: u32, b: u32) -> u32
    ensures { result ≡ union a b }
{
    nodeset::union(a, b)
}

#[unsafe(no_mangle)]
pub extern "C" fn nodeset_full(n: u32) -> u32
    ensures { result ≡ full n }
{
    nodeset::full(n)
}

#[unsafe(no_mangle)]
pub extern "C" fn nodeset_is_subset(a: u32, b: u32) -> bool
    ensures { result ≡ subset a b }
{
    nodeset::is_subset(a, b)
}

#[unsafe(no_mangle)]
pub extern "C" fn nodeset_is_within(n: u32, s: u32) -> bool
    ensures { result ≡ within n s }
{
    nodeset::is_within(n, s)
}

#[unsafe(no_mangle)]
pub extern "C" fn nodeset_size(n: u32, s: u32) -> u32
    ensures { result ≡ size n s }
{
    nodeset::size(n, s)
}

#[unsafe(no_mangle)]
pub extern "C" fn nodeset_distance(n: u32, a: u32, b: u32) -> u32
    ensures { result ≡ distance n a b }
{
    nodeset::distance(n, a, b)
}

#[unsafe(no_mangle)]
pub extern "C" fn nodeset_run(s: u32) -> u32
    ensures { result ≡ run s }
{
    nodeset::run(s)
}

// ---- The ring

#[unsafe(no_mangle)]
pub extern "C" fn ring_is_ring_size(n: u32) -> bool
    ensures { result ≡ ring_size n }
{
    cable::is_ring_size(n)
}

#[unsafe(no_mangle)]
pub extern "C" fn ring_is_node_number(n: u32, x: u32) -> bool
    ensures { result ≡ node_number n x }
{
    cable::is_node_number(n, x)
}

#[unsafe(no_mangle)]
pub extern "C" fn ring_is_sponsor_count(n: u32, k: u32, lag: u32) -> bool
    ensures { result ≡ sponsor_count (lagging_cable n k lag) }
{
    cable::is_sponsor_count(cable::plain_cable(Choices { n, k, m: 0, lag }))
}

#[unsafe(no_mangle)]
pub extern "C" fn ring_ks(n: u32, k: u32, lag: u32, c: u32) -> u32
    ensures { result ≡ ks (lagging_cable n k lag) c }
{
    ring::ks(cable::plain_cable(Choices { n, k, m: 0, lag }), c)
}

// The cable with these numbers, no jobs and this slot table.
fn cable(n: u32, k: u32, lag: u32, slots: &[u8]) -> Cable
    ensures { result ≡ cable_with (choices_of n k lag) slots.now }
{
    cable::cable_with(Choices { n, k, m: 0, lag }, slots)
}

// Whose slot follows `done` slots: the refusal's number, or 2^33 and the node.
#[unsafe(no_mangle)]
pub extern "C" fn ring_sender(n: u32, slots: &[u8], done: u64) -> u64
    ensures { result ≡ speaker_number (sender_of (cable_with (choices_of n 0 0) slots.now) (done + 1)) }
{
    let cable = cable(n, 0, 0, slots);
    match ring::sender(cable, done) {
        Ok(x) => 0x2_0000_0000 + x as u64,
        Err(cause) => refusal::number(cause) as u64,
    }
}

// Nobody: 2^33 and 2^32, which is no number of 32 bits.
const NOBODY: u64 = 0x3_0000_0000;

// 2^33 and the member, or nobody. This and `back_number` are two, as the clauses of the exports name two.
fn found_number(found: Option<Found>) -> u64
    ensures { result ≡ found_number found }
{
    match found {
        Some(found) => 0x2_0000_0000 + found.member as u64,
        None => NOBODY,
    }
}

// 2^33 and how many slots back the member speaks, or nobody.
fn back_number(found: Option<Found>) -> u64
    ensures { result ≡ back_number found }
{
    match found {
        Some(found) => 0x2_0000_0000 + found.back as u64,
        None => NOBODY,
    }
}

// The refusal's number, or that of what is found.
fn lookup_number(lookup: Result<Option<Found>, Refusal>) -> u64
    ensures { result ≡ lookup_number lookup }
{
    match lookup {
        Ok(found) => found_number(found),
        Err(cause) => refusal::number(cause) as u64,
    }
}

// The refusal's number, or how many slots back the member speaks that is found.
fn lookup_back(lookup: Result<Option<Found>, Refusal>) -> u64
    ensures { result ≡ lookup_back lookup }
{
    match lookup {
        Ok(found) => back_number(found),
        Err(cause) => refusal::number(cause) as u64,
    }
}

#[unsafe(no_mangle)]
pub extern "C" fn ring_before(n: u32, slots: &[u8], set: u32, x: u32, j: u32) -> u64
    ensures { result ≡ lookup_number (before_of (cable_with (choices_of n 0 0) slots.now) set x j) }
{
    let cable = cable(n, 0, 0, slots);
    lookup_number(ring::before(cable, set, x, j))
}

#[unsafe(no_mangle)]
pub extern "C" fn ring_sponsored(
    n: u32,
    k: u32,
    lag: u32,
    slots: &[u8],
    set: u32,
    x: u32,
    j: u32,
) -> u64
    ensures { result ≡ lookup_number (sponsored_of (cable_with (choices_of n k lag) slots.now) set x j) }
{
    let cable = cable(n, k, lag, slots);
    lookup_number(ring::sponsored(cable, set, x, j))
}

#[unsafe(no_mangle)]
pub extern "C" fn ring_decided(n: u32, k: u32, lag: u32, slots: &[u8], set: u32, x: u32) -> u64
    ensures { result ≡ lookup_number (decided_of (cable_with (choices_of n k lag) slots.now) set x) }
{
    let cable = cable(n, k, lag, slots);
    lookup_number(ring::decided(cable, set, x))
}

#[unsafe(no_mangle)]
pub extern "C" fn ring_before_back(n: u32, slots: &[u8], set: u32, x: u32, j: u32) -> u64
    ensures { result ≡ lookup_back (before_of (cable_with (choices_of n 0 0) slots.now) set x j) }
{
    let cable = cable(n, 0, 0, slots);
    lookup_back(ring::before(cable, set, x, j))
}

#[unsafe(no_mangle)]
pub extern "C" fn ring_sponsored_back(
    n: u32,
    k: u32,
    lag: u32,
    slots: &[u8],
    set: u32,
    x: u32,
    j: u32,
) -> u64
    ensures { result ≡ lookup_back (sponsored_of (cable_with (choices_of n k lag) slots.now) set x j) }
{
    let cable = cable(n, k, lag, slots);
    lookup_back(ring::sponsored(cable, set, x, j))
}

#[unsafe(no_mangle)]
pub extern "C" fn ring_decided_back(n: u32, k: u32, lag: u32, slots: &[u8], set: u32, x: u32) -> u64
    ensures { result ≡ lookup_back (decided_of (cable_with (choices_of n k lag) slots.now) set x) }
{
    let cable = cable(n, k, lag, slots);
    lookup_back(ring::decided(cable, set, x))
}
