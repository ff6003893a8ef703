// What the calls of the bench are asked and what they answer (document 01, "The bench"). What each call
// does is specs/Calls, Pairs and Outcomes; with a ledger and counts, Ledger, Reports and Kept; on the table
// as it is held, Held; sequences of calls are specs/Runs. The code is in `bench_calls`.
#![tactic(auto)]

use cable::Choices;
use refusal::Refusal;

// A call over the table: set-up with the cable's choices, beside which the slot table is lent; off and
// restart of a node; a slot, whose message is lost or not, which these nodes miss, and with the sender's
// job byte; a look, which changes nothing and tells of the next slot's message, lost or not.
#[derive(Clone, Copy)]
pub enum Command {
    SetUp(Choices),
    Off(u32),
    Restart(u32),
    Slot(bool, u32, u8),
    Look(bool),
}

// What comes of a message: nothing is sent, it is lost, or it is sent, a knock or another.
#[derive(Clone, Copy)]
pub enum Fate {
    Silent,
    Lost,
    Knock,
    Sent,
}

// What there is to print of a call: nothing, a slot (its number, sender, fate, and the list and the
// distance after it), or why it is refused. The list is the set of the lowest-numbered member, if there is
// one. A look tells the slots done, the next slot's sender and fate, and the list and the distance as they
// are. No `Result` of an `Option`: whoever prints takes the three cases apart at once.
#[derive(Clone, Copy)]
pub enum Outcome {
    Quiet,
    Slot(u64, u32, Fate, Option<u32>, u32),
    Refused(Refusal),
}

// What a call answers: what there is to print of it, and how many pairs tell a slot's changes.
#[derive(Clone, Copy)]
pub struct Reply {
    pub outcome: Outcome,
    pub pairs: u32,
}
