// The calls of `node` on a record as bytes and on the counts beside it.
ghost use Rattle.std.specs.Prelude.{◌≡◌, ◌⊎◌};
ghost use Rattle.node_bytes.specs.Letters.{request_of};

use crate::bytes;
use cable::Choices;
use node::Counted;
use node_record::Held;
use run_io::block;
use run_io::block::Block;

// What a command asks for.
#[derive(Clone, Copy)]
pub enum Request {
    SetUp,
    Slot,
    Send,
    Off,
    Restart,
    // The record becomes the command's bytes.
    Load,
    // The record becomes what holds the record of the rules that these are.
    Hold,
    // The record of the rules that the record stands for.
    AsSet,
}

// What a command's letter asks for; a letter that stands for nothing else restarts.
#[tactic(auto, unfolding(crate::specs::Letters::request_of))]
pub fn request_of(letter: u8) -> Request
    ensures { result ≡ request_of letter }
{
    match letter {
        b'U' => Request::SetUp,
        b'S' => Request::Slot,
        b'T' => Request::Send,
        b'F' => Request::Off,
        b'L' => Request::Load,
        b'H' => Request::Hold,
        b'A' => Request::AsSet,
        _ => Request::Restart,
    }
}

// How many bytes follow the size: five numbers and so many places, as far as a block holds them; so many
// bytes heard; the job byte; or a record.
pub fn body(request: Request, size: u8) -> u8 {
    match request {
        Request::SetUp => size.saturating_add(20),
        Request::Slot => size,
        Request::Send => 1,
        Request::Load => bytes::RECORD,
        Request::Hold => bytes::RULES,
        Request::Off | Request::Restart | Request::AsSet => 0,
    }
}

// 0 or the refusal's number, and how many bytes were sent.
#[derive(Clone, Copy)]
pub struct Outcome {
    pub number: u32,
    pub sent: usize,
}

// Record and counts become those of the answer; on a refusal every byte and every count stays.
fn kept(record: &mut Block, counts: &mut [[u64; 8]; 32], counted: Counted) -> u32
    ensures { (result ≡ 0)
        ⊎ ((«record».new ≡ «record».old) × (counts.new ≡ counts.old)) }
{
    let stepped = counted.stepped;
    let node = stepped.node;
    let answer = stepped.answer;
    match answer {
        Ok(()) => {
            bytes::set_held(record, node);
            *counts = node::counts_of(counted);
            0
        }
        Err(refusal) => refusal::number(refusal),
    }
}

// The slot table stands after the numbers, with so many places; where there is no room for these, it is
// longer than any.
fn set_up(arguments: &Block, places: u8) -> Counted {
    let choices = Choices {
        n: block::word(arguments, 0),
        k: block::word(arguments, 4),
        m: block::word(arguments, 8),
        lag: block::word(arguments, 12),
    };
    let table = arguments.get(20..20 + usize::from(places));
    let slots = table.unwrap_or(arguments);
    node::set_up(choices, slots, block::word(arguments, 16))
}

// Sends into the first `room` bytes of `out`. The job byte stands in the first of them, which is then one of
// the buffer's, 0xA5.
fn send(node: Held, out: &mut Block, room: u8) -> Outcome {
    let jobs = out[0];
    out[0] = 0xA5;
    let written = node::send(node, jobs, &mut out[..usize::from(room)]);
    match written {
        Ok(n) => Outcome { number: 0, sent: n },
        Err(refusal) => Outcome {
            number: refusal::number(refusal),
            sent: 0,
        },
    }
}

// The record of the rules that the record stands for goes into the start of `out`; on a refusal one of no
// node.
fn as_set(node: Held, out: &mut Block) -> u32 {
    match node::as_set(node) {
        Ok(node) => {
            bytes::set_node(out, node);
            0
        }
        Err(cause) => {
            bytes::set_node(out, bytes::node_of(&bytes::first()));
            refusal::number(cause)
        }
    }
}

// The record becomes what holds this record of the rules.
fn as_row(record: &mut Block, rules: &Block) {
    bytes::set_held(record, node_record::as_row(bytes::node_of(rules)));
}

// Carries a command out. What it hears or loads, and where it sends or puts the record of the rules, are
// the first bytes of `block`. A refused command leaves every byte of the record and every count.
pub fn call(
    record: &mut Block,
    counts: &mut [[u64; 8]; 32],
    block: &mut Block,
    letter: u8,
    size: u8,
) -> Outcome
    ensures { (result.number ≡ 0)
        ⊎ ((«record».new ≡ «record».old) × (counts.new ≡ counts.old)) }
{
    let node = bytes::held_of(record);
    let counted = match request_of(letter) {
        Request::Load => {
            *record = *block;
            return Outcome { number: 0, sent: 0 };
        }
        Request::Hold => {
            as_row(record, block);
            return Outcome { number: 0, sent: 0 };
        }
        Request::AsSet => {
            return Outcome {
                number: as_set(node, block),
                sent: 0,
            };
        }
        Request::Send => return send(node, block, size),
        Request::SetUp => set_up(block, size),
        Request::Slot => node::slot(&block[..usize::from(size)], node, *counts),
        Request::Off => node::with_counts(node::off(node), *counts),
        Request::Restart => node::with_counts(node::restart(node), *counts),
    };
    Outcome {
        number: kept(record, counts, counted),
        sent: 0,
    }
}
