// A record as the first bytes of a block: the record of the rules, and the record as it is held, which has
// its row's length where that one has its set, and its row's places after all else.
use cable::Cable;
use node_record::{Cause, Held, Node, State, Window};
use row::Row;
use run_io::block;
use run_io::block::Block;

// How many bytes a record is as it is held.
pub const RECORD: u8 = 124;

// How many bytes a record of the rules is.
pub const RULES: u8 = 92;

// As in `cover_light_c`, which is linked into programs in C and offers nothing to crates.
fn state_of(number: u8) -> State {
    match number {
        0 => State::Member,
        1 => State::Listening,
        2 => State::Following,
        3 => State::Knocking,
        4 => State::Out(Cause::Unconfirmed),
        5 => State::Out(Cause::NothingHeard),
        6 => State::Out(Cause::MissedReturn),
        _ => State::Out(Cause::SwitchedOff),
    }
}

fn number_of(state: State) -> u8 {
    match state {
        State::Member => 0,
        State::Listening => 1,
        State::Following => 2,
        State::Knocking => 3,
        State::Out(cause) => match cause {
            Cause::Unconfirmed => 4,
            Cause::NothingHeard => 5,
            Cause::MissedReturn => 6,
            Cause::SwitchedOff => 7,
        },
    }
}

// A record of no node, as before the first command: all bytes 0 but the state, 7.
pub fn first() -> Block {
    let mut bytes = [0u8; 255];
    bytes[20] = 7;
    bytes
}

fn window_of(bytes: &Block) -> Window {
    Window {
        done: block::word(bytes, 34),
        heard: block::word(bytes, 38),
        shortest: block::word(bytes, 42),
        return_seen: bytes[46] == 1,
        last: block::word(bytes, 47),
    }
}

fn cable_of(bytes: &Block) -> Cable {
    Cable {
        n: block::word(bytes, 0),
        k: block::word(bytes, 4),
        m: block::word(bytes, 52),
        lag: block::word(bytes, 56),
        order: slot_table::kept(&bytes[60..92]),
    }
}

pub fn node_of(bytes: &Block) -> Node {
    Node {
        cable: cable_of(bytes),
        own: block::word(bytes, 8),
        slots: block::long_word(bytes, 12),
        state: state_of(bytes[20]),
        set: block::word(bytes, 21),
        present: block::word(bytes, 25),
        returning: block::word(bytes, 29),
        return_heard: bytes[33] == 1,
        yes_heard: bytes[51] == 1,
        listening: window_of(bytes),
    }
}

fn set_window(bytes: &mut Block, window: Window) {
    block::set_word(bytes, 34, window.done);
    block::set_word(bytes, 38, window.heard);
    block::set_word(bytes, 42, window.shortest);
    bytes[46] = u8::from(window.return_seen);
    block::set_word(bytes, 47, window.last);
}

fn set_cable(bytes: &mut Block, cable: Cable) {
    block::set_word(bytes, 0, cable.n);
    block::set_word(bytes, 4, cable.k);
    block::set_word(bytes, 52, cable.m);
    block::set_word(bytes, 56, cable.lag);
    block::set_bytes(bytes, 60, &cable.order);
}

pub fn set_node(bytes: &mut Block, node: Node) {
    set_cable(bytes, node.cable);
    block::set_word(bytes, 8, node.own);
    block::set_long_word(bytes, 12, node.slots);
    bytes[20] = number_of(node.state);
    block::set_word(bytes, 21, node.set);
    block::set_word(bytes, 25, node.present);
    block::set_word(bytes, 29, node.returning);
    bytes[33] = u8::from(node.return_heard);
    bytes[51] = u8::from(node.yes_heard);
    set_window(bytes, node.listening);
}

fn row_of(bytes: &Block) -> Row {
    Row {
        length: block::word(bytes, 21),
        nodes: slot_table::kept(&bytes[92..124]),
    }
}

pub fn held_of(bytes: &Block) -> Held {
    let node = node_of(bytes);
    Held {
        cable: node.cable,
        own: node.own,
        slots: node.slots,
        state: node.state,
        row: row_of(bytes),
        present: node.present,
        returning: node.returning,
        return_heard: node.return_heard,
        yes_heard: node.yes_heard,
        listening: node.listening,
    }
}

pub fn set_held(bytes: &mut Block, held: Held) {
    let node = Node {
        cable: held.cable,
        own: held.own,
        slots: held.slots,
        state: held.state,
        set: held.row.length,
        present: held.present,
        returning: held.returning,
        return_heard: held.return_heard,
        yes_heard: held.yes_heard,
        listening: held.listening,
    };
    set_node(bytes, node);
    block::set_bytes(bytes, 92, &held.row.nodes);
}
