// What a call is answered by. In its order: 0 or the refusal's number; the slot's number (eight bytes);
// its sender (four); the fate of its message, 1 silent, 2 lost, 3 knock, 4 sent; 1 if there is a list,
// and its set (four); the greatest distance (four); how many pairs there are (four). Of a call that tells
// no slot all these are 0 but the first and the last.
use bench::{Fate, Outcome};
use bench_by_value::Ran;
use run_io::block;
use run_io::block::Block;
use run_io::output::Sink;
use std::io::Write;

fn fate_number(fate: Fate) -> u8 {
    match fate {
        Fate::Silent => 1,
        Fate::Lost => 2,
        Fate::Knock => 3,
        Fate::Sent => 4,
    }
}

fn set_list(answer: &mut Block, list: Option<u32>) {
    match list {
        Some(set) => {
            answer[14] = 1;
            block::set_word(answer, 15, set);
        }
        None => {}
    }
}

fn set_told(answer: &mut Block, outcome: Outcome) {
    match outcome {
        Outcome::Quiet => {}
        Outcome::Slot(slot, sender, fate, list, distance) => {
            block::set_long_word(answer, 1, slot);
            block::set_word(answer, 9, sender);
            answer[13] = fate_number(fate);
            set_list(answer, list);
            block::set_word(answer, 19, distance);
        }
        Outcome::Refused(cause) => {
            answer[0] = (refusal::number(cause) % 256) as u8;
        }
    }
}

pub fn put_told<W: Write>(output: &mut Sink<W>, ran: &Ran) {
    let mut answer = [0u8; 255];
    set_told(&mut answer, ran.outcome);
    output.put_all(&answer[..23]);
    output.put_all(&ran.pairs.to_le_bytes());
}
