// The node record (document 01, "The node record"): what it holds, and when it is sound. The rules
// speak of a record with a set (`Node`); what is held has the set as a row (`Held`, document 02, request
// l), and stands for such a record. An inner layer: it takes every record as it is.
#![tactic(auto)]

ghost use Rattle.std.specs.Prelude.{◌≡◌};
ghost use Rattle.node_record.specs.States.{is_member, is_listening, is_following, is_knocking, is_out};
ghost use Rattle.node_record.specs.Soundness.{numbers_sound, knock_sound, heard_sound, yes_sound, window_in_range, window_empty, window_sound, sound};
ghost use Rattle.node_record.specs.Held.{rowed, setted};
ghost use Rattle.node_record.specs.Inner.{sets_held, returning_held, own_held, empty_held, enough_held};

use cable::Cable;
use row::Row;

// Why a node is out.
#[derive(Clone, Copy)]
pub enum Cause {
    Unconfirmed,
    NothingHeard,
    MissedReturn,
    SwitchedOff,
}

#[derive(Clone, Copy)]
pub enum State {
    Member,
    Listening,
    Following,
    Knocking,
    Out(Cause),
}

// The listening data: slots done in this window, nodes heard in it, the shortest run of ones in
// it, whether a return bit of 1 was heard in it, and the nodes of the last clean window.
#[derive(Clone, Copy)]
pub struct Window {
    pub done: u32,
    pub heard: u32,
    pub shortest: u32,
    pub return_seen: bool,
    pub last: u32,
}

// The record of the rules.
#[derive(Clone, Copy)]
pub struct Node {
    pub cable: Cable,
    pub own: u32,
    pub slots: u64,
    pub state: State,
    pub set: u32,
    pub present: u32,
    pub returning: u32,
    pub return_heard: bool,
    pub yes_heard: bool,
    pub listening: Window,
}

// The record as it is held: its set as a row. A struct of its own and no parameter of `Node`, since rules,
// contracts and theorems name `set` and `row`.
#[derive(Clone, Copy)]
pub struct Held {
    pub cable: Cable,
    pub own: u32,
    pub slots: u64,
    pub state: State,
    pub row: Row,
    pub present: u32,
    pub returning: u32,
    pub return_heard: bool,
    pub yes_heard: bool,
    pub listening: Window,
}

// The slot count at which a record takes no further slot.
pub const LIMIT: u64 = 1_000_000_000_000_000;

pub fn is_member(state: State) -> bool
    ensures { result ≡ is_member state }
{
    matches!(state, State::Member)
}

pub fn is_listening(state: State) -> bool
    ensures { result ≡ is_listening state }
{
    matches!(state, State::Listening)
}

pub fn is_following(state: State) -> bool
    ensures { result ≡ is_following state }
{
    matches!(state, State::Following)
}

pub fn is_knocking(state: State) -> bool
    ensures { result ≡ is_knocking state }
{
    matches!(state, State::Knocking)
}

pub fn is_out(state: State) -> bool
    ensures { result ≡ is_out state }
{
    matches!(state, State::Out(_))
}

// ---- conversion

// What holds the record of the rules.
pub fn as_row(v: Node) -> Held
    ensures { result ≡ rowed v }
{
    Held {
        cable: v.cable,
        own: v.own,
        slots: v.slots,
        state: v.state,
        row: row_sets::as_row(v.cable.order, v.set),
        present: v.present,
        returning: v.returning,
        return_heard: v.return_heard,
        yes_heard: v.yes_heard,
        listening: v.listening,
    }
}

// ---- soundness: a function for each clause.

fn numbers_sound(v: Held) -> bool
    ensures { result ≡ numbers_sound (setted v) }
{
    cable::cable_fits(v.cable) & (cable::is_node_number(v.cable.n, v.own) & (v.slots <= LIMIT))
}

fn sets_sound(v: Held) -> bool
    ensures { result ≡ sets_held v }
{
    row_sets::is_sound(v.cable.n, v.cable.order, v.row)
        & (nodeset::is_within(v.cable.n, v.present)
            & nodeset::is_subset(v.present, row_sets::nodes_in(v.row)))
}

fn returning_sound(v: Held) -> bool
    ensures { result ≡ returning_held v }
{
    (v.returning <= v.cable.n) & !row::has(v.row, v.returning)
}

fn own_sound(v: Held) -> bool
    ensures { result ≡ own_held v }
{
    is_member(v.state) == row::has(v.row, v.own)
}

fn knock_sound(v: Held) -> bool
    ensures { result ≡ knock_sound (setted v) }
{
    is_knocking(v.state) == (v.returning == v.own)
}

fn empty_sound(v: Held) -> bool
    ensures { result ≡ empty_held v }
{
    let away = is_listening(v.state) | is_out(v.state);
    !away | ((v.row.length == 0) & ((v.present == 0) & (v.returning == 0)))
}

fn heard_sound(v: Held) -> bool
    ensures { result ≡ heard_sound (setted v) }
{
    !v.return_heard | is_knocking(v.state)
}

fn yes_sound(v: Held) -> bool
    ensures { result ≡ yes_sound (setted v) }
{
    !v.yes_heard | is_member(v.state)
}

fn window_in_range(cable: Cable, own: u32, w: Window) -> bool
    ensures { result ≡ window_in_range cable own w }
{
    let shortest_right = (w.heard != 0) | (w.shortest == cable.k);
    let last_right = (w.last == 0) | (2 <= nodeset::size(cable.n, w.last));
    (w.done < cable.n)
        & (nodeset::is_within(cable.n, w.heard)
            & ((w.shortest <= cable.k)
                & (shortest_right
                    & (nodeset::is_within(cable.n, w.last)
                        & (last_right
                            & (!nodeset::has(w.heard, own) & !nodeset::has(w.last, own)))))))
}

fn window_empty(w: Window) -> bool
    ensures { result ≡ window_empty w }
{
    (w.done == 0) & ((w.heard == 0) & ((w.shortest == 0) & (!w.return_seen & (w.last == 0))))
}

fn enough_sound(v: Held) -> bool
    ensures { result ≡ enough_held v }
{
    let follows = is_following(v.state) | is_knocking(v.state);
    !follows | (2 <= v.row.length)
}

fn window_sound(v: Held) -> bool
    ensures { result ≡ window_sound (setted v) }
{
    if is_listening(v.state) {
        return window_in_range(v.cable, v.own, v.listening);
    }
    window_empty(v.listening)
}

// Whether the record is sound.
pub fn is_sound(v: Held) -> bool
    ensures { result ≡ sound (setted v) }
{
    numbers_sound(v)
        & (sets_sound(v)
            & (returning_sound(v)
                & (own_sound(v)
                    & (knock_sound(v)
                        & (empty_sound(v)
                            & (heard_sound(v)
                                & (yes_sound(v) & (window_sound(v) & enough_sound(v)))))))))
}
