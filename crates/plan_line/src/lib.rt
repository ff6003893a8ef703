// The lines of a plan (document 01, "The bench program"): what a line says, or by which cause it is
// refused. A line comes without its line feed. An inner layer: it takes every n as it is.
#![tactic(auto)]

ghost use Rattle.std.specs.Prelude.{◌≡◌, true, false, ◌&&◌, ◌+◌, min, drop, leb};
ghost use Rattle.plan_line.specs.Words.{all_digits, gap, is_number, leading_zero, least_after, same, value_of};
ghost use Rattle.plan_line.specs.Plan.{in_ring, missed_with, missed_line, missing_of, named_of, numbers_of, opening_of, line_of, ring_of, word_of};

use cable::Choices;
use refusal::Refusal;

// What a later line says; Miss holds the set of the nodes named.
#[derive(Clone, Copy)]
pub enum Line {
    Ok,
    Lost,
    Miss(u32),
    Off(u32),
    On(u32),
}

// What came of the words after `miss ` so far: whether each names a node, and the set of the nodes. No
// `Option` of a set: the definition `missed_with` goes on with the set.
#[derive(Clone, Copy)]
struct Missed {
    inside: bool,
    set: u32,
}

// Whether every byte of the word is a digit.
fn all_digits(word: &[u8]) -> bool
    ensures { result ≡ all_digits word.now }
{
    word.iter().all(|byte| byte.is_ascii_digit())
}

// Whether the word is a number: digits, at least one, and no 0 before others.
pub fn is_number(word: &[u8]) -> bool
    ensures { result ≡ is_number word.now }
{
    let leading_zero = 1 < word.len() && word[0] == 48;
    !word.is_empty() && !leading_zero && all_digits(word)
}

// The value of a number, 100 where it is 100 or more: no test of a plan tells those apart.
pub fn small_value(word: &[u8]) -> u32
    requires { is_number word.now ≡ true }
    ensures { result ≡ min (value_of word.now) 100 }
{
    if word.len() == 1 {
        return u32::from(word[0] - 48);
    }
    if word.len() == 2 {
        return u32::from(word[0] - 48) * 10 + u32::from(word[1] - 48);
    }
    100
}

// The place of the first byte of this value from `from` on, or the end of the text.
pub fn part_end(text: &[u8], from: usize, mark: u8) -> usize
    ensures { result ≡ from + gap mark (drop from text.now) }
{
    for i in from..text.len() {
        if text[i] == mark {
            return i;
        }
    }
    from.max(text.len())
}

// Whether the line is just the word's bytes.
pub fn same(word: &[u8], line: &[u8]) -> bool
    ensures { result ≡ same word.now line.now }
{
    word == line
}

// Whether the word, a number, is more than the last one. Where there is none yet, `last` is empty.
// A number of more digits is more; the first digit that differs decides between two of the same length.
fn rises(last: &[u8], word: &[u8]) -> bool
    requires { (leading_zero last.now ≡ false) × (all_digits last.now ≡ true) × (is_number word.now ≡ true) }
    ensures { result ≡ leb (least_after last.now) (value_of word.now) }
{
    if last.len() != word.len() {
        return last.len() < word.len();
    }
    last < word
}

// Whether the word is a number that may follow the last one.
fn follows(last: &[u8], word: &[u8]) -> bool
    requires { (leading_zero last.now ≡ false) × (all_digits last.now ≡ true) }
    ensures { result ≡ (is_number word.now && leb (least_after last.now) (value_of word.now)) }
{
    is_number(word) && rises(last, word)
}

// Whether a is a node of a ring of n.
fn in_ring(n: u32, a: u32) -> bool
    ensures { result ≡ in_ring n a }
{
    cable::is_node_number(n, a) && a <= 32
}

// The node that a word names.
fn node_named(n: u32, word: &[u8]) -> Result<u32, Refusal>
    ensures { result ≡ named_of n word.now }
{
    if !is_number(word) {
        return Err(Refusal::PlanLine);
    }
    let a = small_value(word);
    if !in_ring(n, a) {
        return Err(Refusal::NodeNumber);
    }
    Ok(a)
}

// What came of the words so far, with one node more.
fn missed_with(n: u32, missed: Missed, a: u32) -> Missed
    ensures { result ≡ missed_with n missed a }
{
    let inside = in_ring(n, a);
    Missed {
        inside: missed.inside && inside,
        set: nodeset::with(missed.set, a),
    }
}

// What all the words say.
fn missed_line(missed: Missed) -> Result<Line, Refusal>
    ensures { result ≡ missed_line missed }
{
    if !missed.inside {
        return Err(Refusal::NodeNumber);
    }
    Ok(Line::Miss(missed.set))
}

// What the text after `miss ` says: its words stand between single spaces. Before the first, `last` is empty.
fn missing(n: u32, text: &[u8]) -> Result<Line, Refusal>
    ensures { result ≡ missing_of n text.now }
{
    let mut missed = Missed {
        inside: true,
        set: 0,
    };
    let mut last: &[u8] = &[];
    for word in text.split(|&byte| byte == 32) {
        if !follows(last, word) {
            return Err(Refusal::PlanLine);
        }
        missed = missed_with(n, missed, small_value(word));
        last = word;
    }
    missed_line(missed)
}

// What a line of any length says.
fn word(n: u32, line: &[u8]) -> Result<Line, Refusal>
    ensures { result ≡ word_of n line.now }
{
    if same(b"ok", line) {
        return Ok(Line::Ok);
    }
    if same(b"lost", line) {
        return Ok(Line::Lost);
    }
    if let Some(text) = line.strip_prefix(b"miss ") {
        return missing(n, text);
    }
    if let Some(node) = line.strip_prefix(b"off ") {
        return node_named(n, node).map(Line::Off);
    }
    if let Some(node) = line.strip_prefix(b"on ") {
        return node_named(n, node).map(Line::On);
    }
    Err(Refusal::PlanLine)
}

// What a line after line one says. It refuses by 12 and 3, in this order.
pub fn line_of(n: u32, line: &[u8]) -> Result<Line, Refusal>
    ensures { result ≡ line_of n line.now }
{
    if 120 < line.len() {
        return Err(Refusal::PlanLine);
    }
    word(n, line)
}

// The opening by these two numbers: a ring of n nodes in which a member has k sponsors. It refuses by 1 and 2.
fn ring_of(n: u32, k: u32) -> Result<(u32, u32), Refusal>
    ensures { result ≡ ring_of n k }
{
    if !cable::is_ring_size(n) {
        return Err(Refusal::RingSize);
    }
    if !cable::is_sponsor_count(cable::plain_cable(Choices { n, k, m: 0, lag: 0 })) {
        return Err(Refusal::SponsorCount);
    }
    Ok((n, k))
}

// The ring that two words say: n and k.
fn two_numbers(first: &[u8], second: &[u8]) -> Result<(u32, u32), Refusal>
    ensures { result ≡ numbers_of first.now second.now }
{
    if !is_number(first) {
        return Err(Refusal::PlanLine);
    }
    if !is_number(second) {
        return Err(Refusal::PlanLine);
    }
    ring_of(small_value(first), small_value(second))
}

// What line one says, n and k. It refuses by 12, 1 and 2, in this order.
pub fn opening_of(line: &[u8]) -> Result<(u32, u32), Refusal>
    ensures { result ≡ opening_of line.now }
{
    if 120 < line.len() {
        return Err(Refusal::PlanLine);
    }
    let end = part_end(line, 0, 32);
    if line.len() <= end {
        return Err(Refusal::PlanLine);
    }
    two_numbers(&line[..end], &line[end + 1..])
}
