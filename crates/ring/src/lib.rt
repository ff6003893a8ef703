// The ring (document 01, "The ring"): whose slot it is, and which members stand before a node and how
// far back. A set is any u32; its members are the nodes 1 to n in it. The slot's rules ask the row of members
// instead (crate row), which finds the same.
#![tactic(auto)]

ghost use Rattle.std.specs.Prelude.{◌≡◌, ◌+◌};
ghost use Rattle.ring.specs.Ring.{ks, previous, member_before, sponsors, sponsored, decided};
ghost use Rattle.ring.specs.Answers.{sender_of, before_of, sponsored_of, decided_of};
ghost use Rattle.ring.specs.Places.{tests_of, start_at, reach, found_at};

use cable::Cable;
use refusal::Refusal;

// What a walk back along the ring finds: a member, and how many slots back it speaks.
#[derive(Clone, Copy)]
pub struct Found {
    pub member: u32,
    pub back: u32,
}

// How many of c members one of them sponsors.
pub fn ks(cable: Cable, c: u32) -> u32
    ensures { result ≡ ks cable c }
{
    let others = cable::less(cable::less(c, 1), cable.lag);
    cable.k.min(others)
}

// ---- Inner: the walk back, which takes every number as it is.

// A place on the walk back: the node that it reached and its place, and the slots that it may still go
// back from there, which tell how far back it is. Node 0: it met no further member.
#[derive(Clone, Copy)]
struct Place {
    node: u32,
    place: u32,
    left: u32,
}

// The place whose slot comes just before that of place p.
fn previous(n: u32, p: u32) -> u32
    ensures { result ≡ previous n p }
{
    if p <= 1 { n } else { p - 1 }
}

// The place of the j-th member met on the walk back from place p, in at most `left` slots. The loop is
// left by break with the member and the slots left there, which tell its distance: a form that the project
// asks for, so no `for`.
fn walk(left: u32, cable: Cable, set: u32, p: u32, j: u32) -> Place
    ensures { result ≡ reach left cable set p j }
{
    let order = cable.order;
    let mut left = left;
    let mut place = p;
    let mut more = j;
    loop {
        if left == 0 {
            break Place {
                node: 0,
                place: 0,
                left: 0,
            };
        }
        left -= 1;
        place = previous(cable.n, place);
        let node = slot_table::node_at(order, place);
        let met = nodeset::has(set, node);
        if met & (more == 1) {
            break Place { node, place, left };
        }
        more = more.saturating_sub(u32::from(met));
    }
}

// Where the walk back from node x begins. It ends before it comes round to x.
fn start_at(cable: Cable, x: u32) -> Place
    ensures { result ≡ start_at cable x }
{
    let order = cable.order;
    Place {
        node: x,
        place: slot_table::place(order, x),
        left: cable::less(cable.n, 1),
    }
}

// The member at a place, and how many slots back from the start of the walk it speaks; nobody where the
// node is 0.
fn found_at(n: u32, place: Place) -> Option<Found>
    ensures { result ≡ found_at n place }
{
    let back = cable::less(cable::less(n, 1), place.left);
    if place.node == 0 {
        return None;
    }
    Some(Found {
        member: place.node,
        back,
    })
}

// The j-th member before node x.
fn member_before(cable: Cable, set: u32, x: u32, j: u32) -> Option<Found>
    ensures { result ≡ member_before cable set x j }
{
    let start = start_at(cable, x);
    let place = walk(start.left, cable, set, start.place, j);
    found_at(cable.n, place)
}

// How many of the set's members one of them sponsors.
fn sponsors(cable: Cable, set: u32) -> u32
    ensures { result ≡ sponsors cable set }
{
    ks(cable, nodeset::size(cable.n, set))
}

// The j-th member that node x sponsors, the nearest first.
fn sponsored_member(cable: Cable, set: u32, x: u32, j: u32) -> Option<Found>
    ensures { result ≡ sponsored cable set x j }
{
    if j == 0 {
        return None;
    }
    if sponsors(cable, set) < j {
        return None;
    }
    member_before(cable, set, x, j + cable.lag)
}

// The member that node x decides: the last that it sponsors.
fn decided_member(cable: Cable, set: u32, x: u32) -> Option<Found>
    ensures { result ≡ decided cable set x }
{
    sponsored_member(cable, set, x, sponsors(cable, set))
}

// ---- The calls

// The sender of the slot that follows `done` slots. Refuses by 1.
pub fn sender(cable: Cable, done: u64) -> Result<u32, Refusal>
    ensures { result ≡ sender_of cable (done + 1) }
{
    if cable::is_ring_size(cable.n) {
        let order = cable.order;
        let place = done % (cable.n as u64);
        Ok(slot_table::node_at(order, place as u32 + 1))
    } else {
        Err(Refusal::RingSize)
    }
}

// The j-th member before node x. Refuses by 1 and 3.
pub fn before(cable: Cable, set: u32, x: u32, j: u32) -> Result<Option<Found>, Refusal>
    ensures { result ≡ before_of cable set x j }
{
    if !cable::is_ring_size(cable.n) {
        return Err(Refusal::RingSize);
    }
    if !cable::is_node_number(cable.n, x) {
        return Err(Refusal::NodeNumber);
    }
    Ok(member_before(cable, set, x, j))
}

// Whether a cable and node x pass the tests: 1, 16, 2 and 3.
fn tests_of(cable: Cable, x: u32) -> Result<(), Refusal>
    ensures { result ≡ tests_of cable x }
{
    if !cable::is_ring_size(cable.n) {
        return Err(Refusal::RingSize);
    }
    if !cable::is_lag(cable.lag) {
        return Err(Refusal::Lag);
    }
    if !cable::is_sponsor_count(cable) {
        return Err(Refusal::SponsorCount);
    }
    if !cable::is_node_number(cable.n, x) {
        return Err(Refusal::NodeNumber);
    }
    Ok(())
}

// The j-th member that node x sponsors, the nearest first. Refuses by 1, 16, 2 and 3.
pub fn sponsored(cable: Cable, set: u32, x: u32, j: u32) -> Result<Option<Found>, Refusal>
    ensures { result ≡ sponsored_of cable set x j }
{
    tests_of(cable, x)?;
    Ok(sponsored_member(cable, set, x, j))
}

// The member that node x decides. Refuses by 1, 16, 2 and 3.
pub fn decided(cable: Cable, set: u32, x: u32) -> Result<Option<Found>, Refusal>
    ensures { result ≡ decided_of cable set x }
{
    tests_of(cable, x)?;
    Ok(decided_member(cable, set, x))
}
