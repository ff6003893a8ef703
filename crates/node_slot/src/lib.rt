// One slot of a record in any state. An inner layer: it takes every record as it is; the calls of
// `node` and of the bench test records first.
#![tactic(auto)]

ghost use Rattle.std.specs.Prelude.{◌≡◌};
ghost use Rattle.node_record.specs.Held.{setted};
ghost use Rattle.node_slot.specs.Inner.{heard_from};
ghost use Rattle.node_slot.specs.Held.{after_by};

use message::Reading;
use node_record::Held;
use node_steps::Digest;
use refusal::Refusal;

// What a node hears in a slot of s: in its own slot nothing.
fn heard_from(s: u32, heard: Reading, v: Held) -> Reading
    ensures { result ≡ heard_from s heard (setted v) }
{
    if s == v.own {
        return Err(Refusal::MessageLength);
    }
    heard
}

// The record after a slot of which s is the sender, by what the slot means to those who hold one row.
// The slot count is the slot's number already.
#[tactic(auto, unfolding(crate::specs::Held::after_by))]
pub fn after_slot(s: u32, heard: Reading, digest: Digest, v: Held) -> Held
    ensures { result ≡ after_by digest s heard v }
{
    let state = v.state;
    if node_record::is_out(state) {
        return v;
    }
    let told = heard_from(s, heard, v);
    if node_record::is_listening(state) {
        return node_hearing::listening_slot(s, told, v);
    }
    node_steps::tracking_slot(s, told, digest, v)
}
