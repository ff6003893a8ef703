// The calls of `cover_light` for callers in Rust and C, which take and give numbers and slices alone. A
// node record is lent as 124 bytes; specs/Records says which stands where.
#![tactic(auto)]

ghost use Rattle.std.specs.Prelude.{◌≡◌, ◌+◌, ◌≤◌, length};
ghost use Rattle.cover_light_c.specs.Records.{byte_at, word_at, long_at, yes_at, places_at, state_of, cable_in, row_in, window_in, held_in, is_record};
ghost use Rattle.cover_light_c.specs.Calls.{level_in, levels_in, light_number, written_number, outcome_number, Few};

use cable::Cable;
use node_record::{Cause, Held, State, Window};
use refusal::Refusal;
use row::Row;

// ---- a record as bytes

// The byte at a place; 0 where there is none.
fn byte(bytes: &[u8], at: usize) -> u8
    ensures { result ≡ byte_at bytes.now at }
{
    bytes.get(at).copied().unwrap_or(0)
}

// The number in the four bytes from a place on. Requires a place within a record.
fn word(bytes: &[u8], at: usize) -> u32
    requires { at ≤ 124 }
    ensures { result ≡ word_at bytes.now at }
{
    let a = byte(bytes, at);
    let b = byte(bytes, at + 1);
    let c = byte(bytes, at + 2);
    let d = byte(bytes, at + 3);
    u32::from_le_bytes([a, b, c, d])
}

// The number in the eight bytes from a place on. Requires a place within a record.
fn long(bytes: &[u8], at: usize) -> u64
    requires { at ≤ 120 }
    ensures { result ≡ long_at bytes.now at }
{
    let low = word(bytes, at);
    let high = word(bytes, at + 4);
    low as u64 + 0x1_0000_0000 * high as u64
}

// The 32 places from a place on. Requires that they are there.
fn places(bytes: &[u8], at: usize) -> [u8; 32]
    requires { (at ≤ 92) × (at + 32 ≤ length bytes.now) }
    ensures { result ≡ places_at bytes.now at }
{
    let end = at + 32;
    slot_table::kept(&bytes[at..end])
}

// Requires a state's number.
fn state_of(x: u8) -> State
    requires { x ≤ 7 }
    ensures { result ≡ state_of x }
{
    match x {
        0 => State::Member,
        1 => State::Listening,
        2 => State::Following,
        3 => State::Knocking,
        4 => State::Out(Cause::Unconfirmed),
        5 => State::Out(Cause::NothingHeard),
        6 => State::Out(Cause::MissedReturn),
        _ => State::Out(Cause::SwitchedOff),
    }
}

// Requires 124 bytes.
fn cable_in(bytes: &[u8]) -> Cable
    requires { length bytes.now ≡ 124 }
    ensures { result ≡ cable_in bytes.now }
{
    let order = places(bytes, 60);
    Cable {
        n: word(bytes, 0),
        k: word(bytes, 4),
        m: word(bytes, 52),
        lag: word(bytes, 56),
        order,
    }
}

// Requires 124 bytes.
fn row_in(bytes: &[u8]) -> Row
    requires { length bytes.now ≡ 124 }
    ensures { result ≡ row_in bytes.now }
{
    let nodes = places(bytes, 92);
    Row {
        length: word(bytes, 21),
        nodes,
    }
}

fn window_in(bytes: &[u8]) -> Window
    ensures { result ≡ window_in bytes.now }
{
    Window {
        done: word(bytes, 34),
        heard: word(bytes, 38),
        shortest: word(bytes, 42),
        return_seen: byte(bytes, 46) == 1,
        last: word(bytes, 47),
    }
}

// Requires 124 bytes, with a state's number.
fn held_in(bytes: &[u8]) -> Held
    requires { (length bytes.now ≡ 124) × (byte_at bytes.now 20 ≤ 7) }
    ensures { result ≡ held_in bytes.now }
{
    let cable = cable_in(bytes);
    let state = state_of(byte(bytes, 20));
    let row = row_in(bytes);
    let listening = window_in(bytes);
    Held {
        cable,
        own: word(bytes, 8),
        slots: long(bytes, 12),
        state,
        row,
        present: word(bytes, 25),
        returning: word(bytes, 29),
        return_heard: byte(bytes, 33) == 1,
        yes_heard: byte(bytes, 51) == 1,
        listening,
    }
}

// Whether bytes are a record.
fn is_record(bytes: &[u8]) -> bool
    ensures { result ≡ is_record bytes.now }
{
    (bytes.len() == 124)
        & ((byte(bytes, 20) <= 7)
            & ((byte(bytes, 33) <= 1) & ((byte(bytes, 46) <= 1) & (byte(bytes, 51) <= 1))))
}

// ---- the calls

fn light_number(light: Result<u8, Refusal>) -> u64
    ensures { result ≡ light_number light }
{
    match light {
        Ok(level) => 0x2_0000_0000 + level as u64,
        Err(cause) => refusal::number(cause) as u64,
    }
}

// Requires no more bytes than there can be lamps.
fn written_number(written: Result<usize, Refusal>) -> u64
    requires { Few written }
    ensures { result ≡ written_number written }
{
    match written {
        Ok(count) => 0x2_0000_0000 + count as u64,
        Err(cause) => refusal::number(cause) as u64,
    }
}

// The level of a lamp: the refusal's number (4, 3 and 20, in this order), or 2^33 and the level.
#[unsafe(no_mangle)]
pub extern "C" fn cover_light_level(node: &[u8], bases: &[u8], lamp: u32) -> u64
    ensures { result ≡ light_number (level_in node.now bases.now lamp) }
{
    if !is_record(node) {
        return 4;
    }
    let held = held_in(node);
    light_number(cover_light::level(held, bases, lamp))
}

// Writes the levels of all lamps to the start of out, and leaves the bytes after them: the refusal's
// number (4, 20 and 9, in this order), or 2^33 and how many levels there are.
#[unsafe(no_mangle)]
pub extern "C" fn cover_light_levels(node: &[u8], bases: &[u8], out: &mut [u8]) -> u64
    ensures { (result, out.new) ≡ outcome_number (levels_in node.now bases.now out.old) }
{
    if !is_record(node) {
        return 4;
    }
    let held = held_in(node);
    let written = cover_light::levels(held, bases, out);
    written_number(written)
}
