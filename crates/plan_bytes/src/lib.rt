// A plan and a part of its next line as bytes, for the programs that run calls on them for a test. These
// commands load them; each is a letter, a byte and further bytes, numbers lowest byte first.
//
//   P over lines n outcome   lines (eight bytes), n (four), over (1 for yes) and outcome of the plan
//   L row record             row 0 to 31 of the plan becomes this record
//   T 0 length text          the part: its length (eight bytes) and its 121 bytes
//
// An outcome is 23 bytes: 0 for quiet, 1 for a slot, any other for a refusal; slot (eight bytes), sender
// (four), fate (0 silent, 1 lost, 2 knock, any other sent), whether there is a list (1 for yes), the set
// and the distance (four each). A refusal has its number for the sender, and is loaded as that by 12; what
// an outcome does not have is 0. The functions are safe and end; no contract says more.
#![tactic(auto)]

use bench::{Fate, Outcome};
use node_bytes::{bytes, rows};
use plan_program::{Part, Plan};
use refusal::Refusal;
use run_io::block;
use run_io::block::Block;
use run_io::output::Sink;
use std::io::Write;

// What a command loads.
#[derive(Clone, Copy)]
pub enum Target {
    Plan,
    Row,
    Part,
}

pub fn target_of(letter: u8) -> Option<Target> {
    match letter {
        b'P' => Some(Target::Plan),
        b'L' => Some(Target::Row),
        b'T' => Some(Target::Part),
        _ => None,
    }
}

// How many bytes follow the letter and the byte after it.
pub fn body(target: Target) -> u8 {
    match target {
        Target::Plan => 35,
        Target::Row => bytes::RECORD,
        Target::Part => 129,
    }
}

fn fate_of(number: u8) -> Fate {
    match number {
        0 => Fate::Silent,
        1 => Fate::Lost,
        2 => Fate::Knock,
        _ => Fate::Sent,
    }
}

// This and `set_list` stand in `bench_runs`, too: neither crate stands on the other.
fn fate_number(fate: Fate) -> u8 {
    match fate {
        Fate::Silent => 0,
        Fate::Lost => 1,
        Fate::Knock => 2,
        Fate::Sent => 3,
    }
}

fn list_of(block: &Block) -> Option<u32> {
    if block[26] == 1 {
        Some(block::word(block, 27))
    } else {
        None
    }
}

fn set_list(answer: &mut Block, list: Option<u32>) {
    match list {
        Some(set) => {
            answer[26] = 1;
            block::set_word(answer, 27, set);
        }
        None => {}
    }
}

fn outcome_of(block: &Block) -> Outcome {
    match block[12] {
        0 => Outcome::Quiet,
        1 => Outcome::Slot(
            block::long_word(block, 13),
            block::word(block, 21),
            fate_of(block[25]),
            list_of(block),
            block::word(block, 31),
        ),
        _ => Outcome::Refused(Refusal::PlanLine),
    }
}

// Sets the bytes from 12 on, where a command has them.
fn set_outcome(answer: &mut Block, outcome: Outcome) {
    match outcome {
        Outcome::Quiet => {}
        Outcome::Slot(slot, sender, fate, list, distance) => {
            answer[12] = 1;
            block::set_long_word(answer, 13, slot);
            block::set_word(answer, 21, sender);
            answer[25] = fate_number(fate);
            set_list(answer, list);
            block::set_word(answer, 31, distance);
        }
        Outcome::Refused(cause) => {
            answer[12] = 2;
            block::set_word(answer, 21, refusal::number(cause));
        }
    }
}

fn put_outcome<W: Write>(output: &mut Sink<W>, outcome: Outcome) {
    let mut answer = [0u8; 255];
    set_outcome(&mut answer, outcome);
    output.put_all(&answer[12..35]);
}

fn load_plan(plan: &mut Plan, over: u8, block: &Block) {
    plan.lines = block::long_word(block, 0);
    plan.n = block::word(block, 8);
    plan.over = over == 1;
    plan.outcome = outcome_of(block);
}

fn part_of(block: &Block) -> Part {
    Part {
        length: block::long_word(block, 0) as usize,
        text: text_bytes::text_at(block, 8),
    }
}

// The byte after the letter is `byte`.
pub fn load(plan: &mut Plan, part: &mut Part, target: Target, byte: u8, block: &Block) {
    match target {
        Target::Plan => load_plan(plan, byte, block),
        Target::Row => rows::load(&mut plan.rows, byte, bytes::held_of(block)),
        Target::Part => *part = part_of(block),
    }
}

// Over (a byte), lines, n and outcome of the plan, and its 32 rows.
pub fn put_plan<W: Write>(output: &mut Sink<W>, plan: &Plan) {
    output.put(u8::from(plan.over));
    output.put_long_words(&[plan.lines]);
    output.put_all(&plan.n.to_le_bytes());
    put_outcome(output, plan.outcome);
    rows::put_rows(output, &plan.rows);
}

// The part's length (eight bytes) and its 121 bytes.
pub fn put_part<W: Write>(output: &mut Sink<W>, part: &Part) {
    text_bytes::put_text(output, part.length, &part.text);
}
