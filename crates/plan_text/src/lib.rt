// The lines that the bench program prints (document 01, "The bench program"), written into lent bytes
// at a place. An inner layer: the calls of `plan_program` print whole lines. What holds of
// every text that is taken byte by byte is specs/Bytewise. No `Display`: a line goes into lent bytes, and
// each clause names them, the place and the next place (`PutAt`), so buffer and place are no struct either.
#![tactic(auto)]

ghost use Rattle.std.specs.Prelude.{◌≡◌, ◌+◌, ◌≤◌, ◌<◌, leb, length};
ghost use Rattle.plan_text.specs.Text.{digits, fate_text, glyph, next_line, number_then, pasted, places, refusal_text, shown_text, slot_text, written_of, PutAt, PutFew};

use bench::Fate;
use refusal::Refusal;

// How many decimal digits x takes; 0 takes one.
fn count_places(x: u64) -> usize
    ensures { result ≡ places 19 x }
{
    x.max(1).ilog10() as usize + 1
}

// The byte of a digit: `0` to `9`, then `a` to `f`.
fn glyph(digit: u64) -> u8
    requires { digit < 16 }
    ensures { result ≡ glyph digit }
{
    if digit < 10 {
        48 + digit as u8
    } else {
        87 + digit as u8
    }
}

// Puts the last `count` digits of x in this base. The lowest one, at the end, is put first.
fn put_digits(out: &mut [u8], at: usize, count: usize, base: u64, x: u64)
    requires { (at + count ≤ length out.old) × (0 < base) × (base ≤ 16) }
    ensures { out.new ≡ pasted out.old at (digits base count x) }
{
    let mut rest = x;
    for i in (0..count).rev() {
        out[at + i] = glyph(rest % base);
        rest /= base;
    }
}

// Puts a word.
pub fn put_word(out: &mut [u8], at: usize, word: &[u8]) -> usize
    requires { at + length word.now ≤ length out.old }
    ensures { PutAt result at word.now out.old out.new }
{
    let end = at + word.len();
    out[at..end].copy_from_slice(word);
    end
}

// The number of the next line.
pub fn next_line(lines: u64) -> u64
    ensures { result ≡ next_line lines }
{
    lines.saturating_add(1)
}

// Puts a number and the byte after it.
pub fn put_number(out: &mut [u8], at: usize, x: u64, byte: u8) -> usize
    requires { at + 21 ≤ length out.old }
    ensures { PutAt result at (number_then byte x) out.old out.new }
{
    let count = count_places(x);
    put_digits(out, at, count, 10, x);
    out[at + count] = byte;
    at + count + 1
}

// Puts a fate and a space.
fn put_fate(out: &mut [u8], at: usize, fate: Fate) -> usize
    requires { at + 7 ≤ length out.old }
    ensures { PutAt result at (fate_text fate) out.old out.new }
{
    match fate {
        Fate::Silent => put_word(out, at, b"silent "),
        Fate::Lost => put_word(out, at, b"lost "),
        Fate::Knock => put_word(out, at, b"knock "),
        Fate::Sent => put_word(out, at, b"sent "),
    }
}

// Puts a set, or that there is none, and a space.
fn put_shown(out: &mut [u8], at: usize, shown: Option<u32>) -> usize
    requires { at + 9 ≤ length out.old }
    ensures { PutAt result at (shown_text shown) out.old out.new }
{
    let Some(set) = shown else {
        return put_word(out, at, b"-------- ");
    };
    put_digits(out, at, 8, 16, set as u64);
    out[at + 8] = 32;
    at + 9
}

// Whether 80 bytes are left from a place on.
fn has_room(length: usize, at: usize) -> bool
    ensures { result ≡ leb (at + 80) length }
{
    80 <= length && at <= length - 80
}

// Writes the line of a slot at a place: how many bytes it is. It refuses by 9, and then writes nothing.
pub fn slot_line(
    out: &mut [u8],
    at: usize,
    slot: u64,
    sender: u32,
    fate: Fate,
    shown: Option<u32>,
    distance: u32,
) -> Result<usize, Refusal>
    ensures { (result, out.new) ≡ written_of (slot_text slot sender fate shown distance) at out.old }
{
    if !has_room(out.len(), at) {
        return Err(Refusal::OutputShort);
    }
    let after_slot = put_number(out, at, slot, 32);
    let after_sender = put_number(out, after_slot, sender as u64, 32);
    let after_fate = put_fate(out, after_sender, fate);
    let after_set = put_shown(out, after_fate, shown);
    let end = put_number(out, after_set, distance as u64, 10);
    Ok(end - at)
}

// Writes the line of a refusal at a place: how many bytes it is. It refuses by 9, and then writes nothing.
pub fn refusal_line(out: &mut [u8], at: usize, line: u64, cause: u32) -> Result<usize, Refusal>
    ensures { (result, out.new) ≡ written_of (refusal_text line cause) at out.old }
{
    if !has_room(out.len(), at) {
        return Err(Refusal::OutputShort);
    }
    let after_word = put_word(out, at, b"line ");
    let after_line = put_number(out, after_word, line, 32);
    let after_refusal = put_word(out, after_line, b"refusal ");
    let end = put_number(out, after_refusal, cause as u64, 10);
    Ok(end - at)
}

// Puts the line of a refusal.
pub fn put_refusal(out: &mut [u8], at: usize, line: u64, cause: u32) -> usize
    requires { at + 80 ≤ length out.old }
    ensures { PutFew 80 result at (refusal_text line cause) out.old out.new }
{
    let written = refusal_line(out, at, line, cause);
    match written {
        Ok(count) => at + count,
        Err(_) => at,
    }
}
