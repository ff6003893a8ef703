// Converts recorded messages (document 02, request i): a file of them from standard input, each brought
// to the form that the argument names, `three` or `two`, to standard output. What is printed of which
// bytes is proved in `converter_text`; the loop that reads and writes is that of `text_pieces`.
#![tactic(auto)]

ghost use Rattle.std.specs.Prelude.{◌≡◌, ◌≢◌, codes};
ghost use Rattle.converter_text.specs.declared.Direction.TheVariants.{Three, Two};

use converter_text::{Direction, Recording};
use refusal::Refusal;
use std::rt::Env;
use text_pieces::Pieces;

// The recording so far.
#[derive(Clone, Copy)]
struct Conversion {
    recording: Recording,
}

impl Pieces for Conversion {
    fn feed(&mut self, piece: &[u8], output: &mut [u8]) -> Result<usize, Refusal> {
        let fed = converter_text::feed(self.recording, piece, output);
        self.recording = fed.recording;
        fed.written
    }

    fn finish(&mut self, output: &mut [u8]) -> Result<usize, Refusal> {
        converter_text::finish(self.recording, output)
    }
}

// The output holds 80 bytes for each byte of a piece, all that can be printed of it.
fn convert_to(rt: &(impl Input + Print + Eprint), direction: Direction) {
    let mut conversion = Conversion {
        recording: converter_text::start(direction),
    };
    let mut input: [u8; 4096] = [0; 4096];
    let mut output: [u8; 327680] = [0; 327680];
    text_pieces::run(rt, &mut conversion, &mut input, &mut output);
}

// The form that a word names, if it names one.
fn form_of(word: &[u8]) -> Option<Direction>
    ensures three { word.now ≡ codes "three" → result ≡ Some Three }
    ensures two { word.now ≡ codes "two" → result ≡ Some Two }
    ensures other { word.now ≢ codes "three" → word.now ≢ codes "two" → result ≡ None }
{
    match word {
        b"three" => Some(Direction::Three),
        b"two" => Some(Direction::Two),
        _ => None,
    }
}

// The form that the first argument names, if it names one.
fn named(rt: &impl Env) -> Option<Direction> {
    let mut name: [u8; 8] = [0; 8];
    let length = rt.arg(1, &mut name).unwrap_or(0);
    form_of(name.get(..length)?)
}

fn main(rt: HostRuntime) {
    match named(&rt) {
        Some(direction) => convert_to(&rt, direction),
        None => {
            let _ = rt.eprint("the argument is three or two\n");
        }
    }
}
