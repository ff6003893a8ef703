// A file of recorded messages as text (document 02, request i): k and a message on each line, brought to
// the other form. The text comes in pieces, and what is printed of it goes into lent bytes. `feed`
// converts the lines that end in a piece, `finish` ends the text. `convert_main` has it read and written.
#![tactic(auto)]

ghost use Rattle.std.specs.Prelude.{◌≡◌, true, ◌++◌, ◌∷◌, [], ◌+◌, ◌*◌, ◌≤◌, ◌<◌, length};
ghost use Rattle.plan_line.specs.Words.{is_number, value_of};
ghost use Rattle.plan_text.specs.Text.{PutAt, PutFew};
ghost use Rattle.converter_text.specs.Recorded.{capital, conversion, line_text, message_text, outcome_text, turned};
ghost use Rattle.converter_text.specs.Calls.{after, fed_as, fed_of, finished_of, line_ended, start_of, text_of, with_byte};
ghost use Rattle.converter_text.specs.Inner.{byte_at, digit_at, Read, Took};

use refusal::Refusal;

// The form that messages are brought to.
#[derive(Clone, Copy)]
pub enum Direction {
    Three,
    Two,
}

// A recording as far as it has come: the form asked for, the number of lines that have ended, and of the
// next line its first 121 bytes at the most, in an array, since there is no heap. No longer line is
// readable.
#[derive(Clone, Copy)]
pub struct Recording {
    pub direction: Direction,
    pub lines: u64,
    pub length: usize,
    pub text: [u8; 121],
}

// What came of a piece. Where it is refused, the recording is the one that was passed.
#[derive(Clone, Copy)]
pub struct Fed {
    pub recording: Recording,
    pub written: Result<usize, Refusal>,
}

// The message of a line: the first `count` bytes.
#[derive(Clone, Copy)]
struct Message {
    count: usize,
    bytes: [u8; 40],
}

// The digit of a byte, where it is one.
#[tactic(auto, unfolding(crate::specs::Recorded::digit_of))]
fn digit_of(byte: u8) -> Option<u8>
    ensures { result ≡ digit_at byte }
{
    match byte {
        b'0'..=b'9' => Some(byte - b'0'),
        b'A'..=b'F' => Some(byte - b'A' + 10),
        _ => None,
    }
}

// The byte of a digit.
fn capital(digit: u8) -> u8
    requires { digit < 16 }
    ensures { result ≡ capital digit }
{
    if digit < 10 {
        b'0' + digit
    } else {
        b'A' + (digit - 10)
    }
}

// The byte whose text is these three bytes, where they are a byte's.
fn byte_of(space: u8, high: u8, low: u8) -> Option<u8>
    ensures { result ≡ byte_at space high low }
{
    if space != b' ' {
        return None;
    }
    let higher = digit_of(high)?;
    let lower = digit_of(low)?;
    Some(higher * 16 + lower)
}

// Reads the message of a line, from the space before its first byte on. Requires a text that a line holds.
fn message_in(text: &[u8]) -> Option<Message>
    requires { length text.now ≤ 120 }
    ensures { Read text.now result }
{
    let mut bytes = [0u8; 40];
    let count = text.len() / 3;
    if text.len() % 3 != 0 {
        return None;
    }
    for i in 0..count {
        bytes[i] = byte_of(text[3 * i], text[3 * i + 1], text[3 * i + 2])?;
    }
    Some(Message { count, bytes })
}

// Puts a byte of a message, after a space.
#[tactic(auto, unfolding(crate::specs::Recorded::message_text))]
fn put_byte(out: &mut [u8], at: usize, byte: u8) -> usize
    requires { at + 3 ≤ length out.old }
    ensures { PutAt result at (message_text (byte ∷ [])) out.old out.new }
{
    let high = capital(byte / 16);
    let low = capital(byte % 16);
    plan_text::put_word(out, at, &[32, high, low])
}

// Puts a message.
fn put_message(out: &mut [u8], at: usize, bytes: &[u8]) -> usize
    requires { at + 3 * length bytes.now ≤ length out.old }
    ensures { PutAt result at (message_text bytes.now) out.old out.new }
{
    let mut end = at;
    for &byte in bytes {
        end = put_byte(out, end, byte);
    }
    end
}

// Puts the line of a message that was converted. Requires that it fits 80 bytes, and these.
fn put_converted(out: &mut [u8], at: usize, word: &[u8], bytes: &[u8]) -> usize
    requires { (at + 80 ≤ length out.old) × (length word.now + 3 * length bytes.now < 80) }
    ensures { PutFew 80 result at (word.now ++ message_text bytes.now ++ (10 ∷ [])) out.old out.new }
{
    let after_word = plan_text::put_word(out, at, word);
    let after_message = put_message(out, after_word, bytes);
    plan_text::put_word(out, after_message, b"\n")
}

// Converts a message.
fn turn(direction: Direction, k: u32, bytes: &[u8], out: &mut [u8]) -> Result<usize, Refusal>
    ensures { (result, out.new) ≡ conversion direction k bytes.now out.old }
{
    match direction {
        Direction::Three => converter::to_three(k, bytes, out),
        Direction::Two => converter::to_two(k, bytes, out),
    }
}

// Puts what comes of a message: k as it stands, a number, and the message in the other form, or the refusal.
fn put_turned(
    out: &mut [u8],
    at: usize,
    direction: Direction,
    line: u64,
    word: &[u8],
    bytes: &[u8],
) -> usize
    requires { (at + 80 ≤ length out.old) × (is_number word.now ≡ true) }
    ensures { PutFew 80 result at (outcome_text line word.now (turned direction (value_of word.now) bytes.now)) out.old out.new }
{
    let mut made = [0u8; 9];
    let written = turn(direction, plan_line::small_value(word), bytes, &mut made);
    match written {
        Ok(count) => put_converted(out, at, word, &made[..count]),
        Err(cause) => plan_text::put_refusal(out, at, line, refusal::number(cause)),
    }
}

// Puts what is printed of a line, given without its line feed.
fn put_line(out: &mut [u8], at: usize, direction: Direction, line: u64, text: &[u8]) -> usize
    requires { at + 80 ≤ length out.old }
    ensures { PutFew 80 result at (line_text direction line text.now) out.old out.new }
{
    let end = plan_line::part_end(text, 0, 32);
    if 120 < text.len() {
        return plan_text::put_refusal(out, at, line, 12);
    }
    if !plan_line::is_number(&text[..end]) {
        return plan_text::put_refusal(out, at, line, 12);
    }
    let Some(read) = message_in(&text[end..]) else {
        return plan_text::put_refusal(out, at, line, 12);
    };
    let count = read.count;
    let bytes = read.bytes;
    put_turned(out, at, direction, line, &text[..end], &bytes[..count])
}

// Before the first line.
pub fn start(direction: Direction) -> Recording
    ensures { result ≡ start_of direction }
{
    Recording {
        direction,
        lines: 0,
        length: 0,
        text: [0; 121],
    }
}

// One byte more of the next line. `plan_report` has the like for its own line: a recording holds its bytes
// itself, as callers see them.
fn with_byte(r: &mut Recording, byte: u8)
    ensures { r.new ≡ with_byte r.old byte }
{
    let at = r.length;
    if at < 121 {
        r.text[at] = byte;
        r.length = at + 1;
    }
}

// The end of the line.
fn line_ended(r: &mut Recording)
    ensures { r.new ≡ line_ended r.old }
{
    r.lines = plan_text::next_line(r.lines);
    r.length = 0;
}

// Takes a byte, and puts what is printed of it: the place after that.
fn take_byte(r: &mut Recording, byte: u8, out: &mut [u8], at: usize) -> usize
    requires { at + 80 ≤ length out.old }
    ensures { Took r.old byte at r.new result out.old out.new }
{
    if byte != 10 {
        with_byte(r, byte);
        return at;
    }
    let length = r.length.min(121);
    let line = plan_text::next_line(r.lines);
    let end = put_line(out, at, r.direction, line, &r.text[..length]);
    line_ended(r);
    end
}

// Takes the bytes of a piece: the place after what is printed of them. Requires room. The recording is lent,
// so that no byte has it copied. `plan_report` has the like: a trait for both would have to carry `after`,
// `text_of` and their laws for a loop of one line.
fn take_bytes(r: &mut Recording, input: &[u8], out: &mut [u8]) -> usize
    requires { 80 * length input.now ≤ length out.old }
    ensures { (r.new ≡ after r.old input.now) × (PutAt result 0 (text_of r.old input.now) out.old out.new) }
{
    let mut at = 0;
    for &byte in input {
        at = take_byte(r, byte, out, at);
    }
    at
}

// Converts the lines that end in a piece of the input. It refuses by 9, and then does nothing.
pub fn feed(recording: Recording, input: &[u8], out: &mut [u8]) -> Fed
    ensures { fed_as result out.new ≡ fed_of recording input.now out.old }
{
    if out.len() / 80 < input.len() {
        return Fed {
            recording,
            written: Err(Refusal::OutputShort),
        };
    }
    let mut next = recording;
    let at = take_bytes(&mut next, input, out);
    Fed {
        recording: next,
        written: Ok(at),
    }
}

// Ends the input. It refuses by 9, and then does nothing.
pub fn finish(recording: Recording, out: &mut [u8]) -> Result<usize, Refusal>
    ensures { (result, out.new) ≡ finished_of recording out.old }
{
    if recording.length != 0 {
        return plan_text::refusal_line(out, 0, plan_text::next_line(recording.lines), 12);
    }
    if out.len() < 80 {
        return Err(Refusal::OutputShort);
    }
    Ok(0)
}
