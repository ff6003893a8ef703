// What a node sends in its own slot, by its held record. An inner layer: it takes every record as it
// is; the calls of `node` test records first.
#![tactic(auto)]

ghost use Rattle.std.specs.Prelude.{◌≡◌};
ghost use Rattle.row.specs.Sponsoring.{sponsors_row};
ghost use Rattle.node_record.specs.Held.{setted};
ghost use Rattle.node_sending.specs.Sending.{sends, return_sent, jobs_sent};
ghost use Rattle.node_sending.specs.Held.{mark_bits, bits_sent};

use node_record::{Held, is_following, is_member};

// The acknowledgement bits of a member: its marks of those that it sponsors, so many places back in
// the row from its own.
fn mark_bits(v: Held) -> u32
    ensures { result ≡ mark_bits (sponsors_row v.cable v.row) v }
{
    let cable = v.cable;
    let order = cable.order;
    let row = v.row;
    let most = row_sponsors::sponsors(cable, row);
    let p = row::rank(order, row, v.own);
    let here = row::has(row, v.own);
    let mut bits = 0;
    for earlier in 0..most {
        let j = earlier + 1;
        let member = row_sponsors::back(row, p, here, j + cable.lag);
        let marked = nodeset::has(v.present, member);
        bits = nodeset::with_if(marked, bits, j);
    }
    bits
}

// The acknowledgement bits that the node sends in its own slot.
pub fn bits_sent(v: Held) -> u32
    ensures { result ≡ bits_sent v }
{
    let state = v.state;
    if is_member(state) {
        return mark_bits(v);
    }
    0
}

// Whether the node sends in its own slot.
pub fn sends(v: Held) -> bool
    ensures { result ≡ sends (setted v) }
{
    let state = v.state;
    is_member(state) | (is_following(state) & (v.returning == 0))
}

// The return bit that it sends there.
pub fn return_sent(v: Held) -> bool
    ensures { result ≡ return_sent (setted v) }
{
    let state = v.state;
    is_member(state) & (v.returning != 0)
}

// The job byte that it sends there, where this one is given.
pub fn jobs_sent(jobs: u8, v: Held) -> u8
    ensures { result ≡ jobs_sent jobs (setted v) }
{
    let state = v.state;
    if !is_member(state) {
        return 0;
    }
    jobs
}
