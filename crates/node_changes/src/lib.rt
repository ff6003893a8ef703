// Held records made anew: whole ones, and copies with a field changed. An inner layer: it takes
// every record as it is; the calls of `node` test records first.
#![tactic(auto)]

ghost use Rattle.std.specs.Prelude.{◌≡◌};
ghost use Rattle.node_changes.specs.Held.{starting, out_for, listening_after, fresh, following_with, leave, with_row, with_marks, with_returning, with_window};

use cable::Cable;
use node_record::{Cause, Held, State, Window, is_member};
use row::Row;

// Listening data of a node that does not listen.
const NO_WINDOW: Window = Window {
    done: 0,
    heard: 0,
    shortest: 0,
    return_seen: false,
    last: 0,
};

// A member of a full set, all marks on.
pub fn starting(cable: Cable, own: u32) -> Held
    ensures { result ≡ starting cable own }
{
    let all = nodeset::full(cable.n);
    Held {
        cable,
        own,
        slots: 0,
        state: State::Member,
        row: row_sets::as_row(cable.order, all),
        present: all,
        returning: 0,
        return_heard: false,
        yes_heard: false,
        listening: NO_WINDOW,
    }
}

// Out for a cause.
pub fn out_for(cause: Cause, v: Held) -> Held
    ensures { result ≡ out_for cause v }
{
    Held {
        state: State::Out(cause),
        row: row::empty(),
        present: 0,
        returning: 0,
        return_heard: false,
        yes_heard: false,
        listening: NO_WINDOW,
        ..v
    }
}

// Listening with no slot done, after a last clean window with these nodes.
pub fn listening_after(last: u32, v: Held) -> Held
    ensures { result ≡ listening_after last v }
{
    let listening = Window {
        shortest: v.cable.k,
        last,
        ..NO_WINDOW
    };
    Held {
        state: State::Listening,
        row: row::empty(),
        present: 0,
        returning: 0,
        return_heard: false,
        yes_heard: false,
        listening,
        ..v
    }
}

// Listening afresh.
pub fn fresh(v: Held) -> Held
    ensures { result ≡ fresh v }
{
    listening_after(0, v)
}

// Following with a set, all of it marked.
pub fn following_with(set: u32, v: Held) -> Held
    ensures { result ≡ following_with set v }
{
    Held {
        state: State::Following,
        row: row_sets::as_row(v.cable.order, set),
        present: set,
        returning: 0,
        return_heard: false,
        yes_heard: false,
        listening: NO_WINDOW,
        ..v
    }
}

// A node that must leave.
#[tactic(auto, unfolding(crate::specs::Held::leave))]
pub fn leave(cause: Cause, v: Held) -> Held
    ensures { result ≡ leave cause v }
{
    if is_member(v.state) {
        return out_for(cause, v);
    }
    fresh(v)
}

// The record with another row.
pub fn with_row(row: Row, v: Held) -> Held
    ensures { result ≡ with_row row v }
{
    Held { row, ..v }
}

// The record with other marks, another yes heard and another return heard.
pub fn with_marks(present: u32, assured: bool, heard: bool, v: Held) -> Held
    ensures { result ≡ with_marks present assured heard v }
{
    Held {
        present,
        yes_heard: assured,
        return_heard: heard,
        ..v
    }
}

// The record in a state, with another returning node.
pub fn with_returning(state: State, r: u32, v: Held) -> Held
    ensures { result ≡ with_returning state r v }
{
    Held {
        state,
        returning: r,
        ..v
    }
}

// The record with other listening data.
pub fn with_window(window: Window, v: Held) -> Held
    ensures { result ≡ with_window window v }
{
    Held {
        listening: window,
        ..v
    }
}
