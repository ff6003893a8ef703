// Reads and writes the messages of document 01 ("The message"). A message is its sections in order; each is a count byte and then
// the bits that are counted, lowest first. A message has three of them (request h); recorded ones have the first two.
// What a node puts into a message is in node_sending.
#![tactic(auto)]

ghost use Rattle.std.specs.Prelude.{◌≡◌, ◌++◌, ◌+◌, ◌-◌, ◌^◌, ◌≤◌, ◌<◌, ◌&&◌, ltb, length, take, drop};
ghost use Rattle.message.specs.Message.{acknowledgement_section, bits_in, in_range, jobs_within, length_of, length_one, length_two, message_of, part_one, read_of, said_by, section_in, section_of, two_sections, unread, write_of};
ghost use Rattle.message.specs.TwoSections.{read_two_of, write_two_of};

use refusal::Refusal;

// What a message says of the members.
#[derive(Clone, Copy)]
pub struct Heard {
    pub acknowledgements: u32,
    pub return_bit: bool,
}

// What a message says, or why the bytes are no message.
pub type Reading = Result<Heard, Refusal>;

// What is read from bytes: that, and the job byte, 0 where the bytes are no message (`unread`). They stand
// beside one another, since a slot takes any reading with any job byte (`node::step`).
#[derive(Clone, Copy)]
pub struct Received {
    pub reading: Reading,
    pub jobs: u8,
}

// A section as it was found: whether its count is right, whether its spare bits are 0, and its bits.
#[derive(Clone, Copy)]
struct Section {
    counted: bool,
    clear: bool,
    bits: u32,
}

// Whether k is 2 to 31.
fn in_range(k: u32) -> bool
    ensures { result ≡ in_range k }
{
    2 <= k && k <= 31
}

// The length of section one. Requires k at most 31.
fn length_one(k: u32) -> usize
    requires { k ≤ 31 }
    ensures { result ≡ length_one k }
{
    1 + ((k + 7) / 8) as usize
}

// The bits of a section. Requires that it has its count, and at most 4 bytes after it, so that the bits fit.
fn bits_in(part: &[u8]) -> u32
    requires { (1 ≤ length part.now) × (length part.now ≤ 5) }
    ensures { result ≡ bits_in part.now }
{
    let mut bits: u32 = 0;
    for i in (1..part.len()).rev() {
        bits = part[i] as u32 + bits * 256;
    }
    bits
}

// A section as it is found where the count given is due. Requires what `bits_in` does, and a count below 32.
fn section_in(count: u32, part: &[u8]) -> Section
    requires { (count < 32) × ((1 ≤ length part.now) × (length part.now ≤ 5)) }
    ensures { result ≡ section_in count part.now }
{
    let bits = bits_in(part);
    Section {
        counted: part[0] as u32 == count,
        clear: bits >> count == 0,
        bits,
    }
}

// Section one of bytes, the k acknowledgements. Requires bytes so long.
fn acknowledgements_in(k: u32, bytes: &[u8]) -> Section
    requires { (k ≤ 31) × (length_one k ≤ length bytes.now) }
    ensures { result ≡ section_in k (part_one k bytes.now) }
{
    let end = length_one(k);
    section_in(k, &bytes[..end])
}

// The section of one byte after its count that begins at start. Requires a count below 32, and bytes so long.
fn byte_section_in(count: u32, start: usize, bytes: &[u8]) -> Section
    requires { (count < 32) × (start + 2 ≤ length bytes.now) }
    ensures { result ≡ section_in count (take 2 (drop start bytes.now)) }
{
    section_in(count, &bytes[start..start + 2])
}

// The answer where bytes are no message.
fn unread(cause: Refusal) -> Received
    ensures { result ≡ unread cause }
{
    Received {
        reading: Err(cause),
        jobs: 0,
    }
}

// What the sections of a message say.
fn said_by(one: Section, two: Section, three: Section) -> Received
    ensures { result ≡ said_by one two three }
{
    if !(one.counted & (two.counted & three.counted)) {
        return unread(Refusal::SectionCount);
    }
    if !(one.clear & (two.clear & three.clear)) {
        return unread(Refusal::SpareBit);
    }
    let heard = Heard {
        acknowledgements: one.bits,
        return_bit: two.bits % 2 == 1,
    };
    Received {
        reading: Ok(heard),
        jobs: (three.bits % 256) as u8,
    }
}

// Reads a message for k and m. It takes any bytes, and refuses by 2, 14, 6, 7 and 8, in this order.
pub fn read(k: u32, m: u32, bytes: &[u8]) -> Received
    ensures { result ≡ read_of k m bytes.now }
{
    if !in_range(k) {
        return unread(Refusal::SponsorCount);
    }
    if !cable::is_job_count(m) {
        return unread(Refusal::JobCount);
    }
    let start = length_one(k);
    if bytes.len() != start + 4 {
        return unread(Refusal::MessageLength);
    }
    let one = acknowledgements_in(k, bytes);
    let two = byte_section_in(1, start, bytes);
    let three = byte_section_in(m, start + 2, bytes);
    said_by(one, two, three)
}

// Reads a message of two sections; its job byte is 0. It takes any bytes, and refuses by 2, 6, 7 and 8,
// in this order.
pub fn read_two(k: u32, bytes: &[u8]) -> Received
    ensures { result ≡ read_two_of k bytes.now }
{
    if !in_range(k) {
        return unread(Refusal::SponsorCount);
    }
    let start = length_one(k);
    if bytes.len() != start + 2 {
        return unread(Refusal::MessageLength);
    }
    let one = acknowledgements_in(k, bytes);
    let two = byte_section_in(1, start, bytes);
    let absent = Section {
        counted: true,
        clear: true,
        bits: 0,
    };
    said_by(one, two, absent)
}

// Fills part with a section: the count, then the bits in the bytes that are left. Requires a count that fits a byte, and room for it.
fn put_section(count: u32, bits: u32, part: &mut [u8])
    requires { (count < 256) × (1 ≤ length part.old) }
    ensures { part.new ≡ section_of count (length part.old - 1) bits }
{
    part[0] = count as u8;
    let mut rest = bits;
    for i in 1..part.len() {
        part[i] = (rest % 256) as u8;
        rest /= 256;
    }
}

// Writes section one to its place in out. Requires room for it.
fn put_acknowledgements(k: u32, acknowledgements: u32, out: &mut [u8])
    requires { (k ≤ 31) × (length_one k ≤ length out.old) }
    ensures { out.new ≡ acknowledgement_section k acknowledgements ++ drop (length_one k) out.old }
{
    let end = length_one(k);
    put_section(k, acknowledgements, &mut out[..end]);
}

// Writes a section of one byte after its count from start on. Requires a count that fits a byte, and room for it.
fn put_byte_section(count: u32, bits: u32, start: usize, out: &mut [u8])
    requires { (count < 256) × (start + 2 ≤ length out.old) }
    ensures { out.new ≡ take start out.old ++ (section_of count 1 bits ++ drop (start + 2) out.old) }
{
    put_section(count, bits, &mut out[start..start + 2]);
}

// Whether the job byte has no bit past m.
pub fn jobs_within(m: u32, jobs: u8) -> bool
    ensures { result ≡ jobs_within m jobs }
{
    8 <= m || jobs as u32 >> m == 0
}

// Whether no acknowledgement is past k and no job past m. Requires k at most 31.
fn no_spare_bit(k: u32, m: u32, acknowledgements: u32, jobs: u8) -> bool
    requires { k ≤ 31 }
    ensures { result ≡ (ltb acknowledgements (2 ^ k) && jobs_within m jobs) }
{
    (acknowledgements >> k == 0) & jobs_within(m, jobs)
}

// Writes the first two sections, one after the other. Requires room for them.
fn put_two(k: u32, acknowledgements: u32, return_bit: bool, out: &mut [u8])
    requires { (k ≤ 31) × (length_two k ≤ length out.old) }
    ensures { out.new ≡ two_sections k acknowledgements return_bit ++ drop (length_two k) out.old }
{
    let start = length_one(k);
    put_acknowledgements(k, acknowledgements, out);
    put_byte_section(1, return_bit as u32, start, out);
}

// Writes the sections one after the other. Requires counts in range, and room for the message.
fn put_message(k: u32, m: u32, acknowledgements: u32, return_bit: bool, jobs: u8, out: &mut [u8])
    requires { (k ≤ 31) × ((m ≤ 8) × (length_of k ≤ length out.old)) }
    ensures { out.new ≡ message_of k m acknowledgements return_bit jobs ++ drop (length_of k) out.old }
{
    let end = length_one(k) + 2;
    put_two(k, acknowledgements, return_bit, out);
    put_byte_section(m, jobs as u32, end, out);
}

// Writes a message for k and m to the start of out, and leaves the bytes after it: how many it wrote. It
// refuses by 2, 14, 8 and 9, in this order, and then writes nothing. What it is to say comes as numbers, and
// not as `Heard`, as the clauses and the exports for C have it.
pub fn write(
    k: u32,
    m: u32,
    acknowledgements: u32,
    return_bit: bool,
    jobs: u8,
    out: &mut [u8],
) -> Result<usize, Refusal>
    ensures { (result, out.new) ≡ write_of k m acknowledgements return_bit jobs out.old }
{
    if !in_range(k) {
        return Err(Refusal::SponsorCount);
    }
    if !cable::is_job_count(m) {
        return Err(Refusal::JobCount);
    }
    if !no_spare_bit(k, m, acknowledgements, jobs) {
        return Err(Refusal::SpareBit);
    }
    let length = length_one(k) + 4;
    if out.len() < length {
        return Err(Refusal::OutputShort);
    }
    put_message(k, m, acknowledgements, return_bit, jobs, out);
    Ok(length)
}

// Writes a message of two sections for k to the start of out, and leaves the bytes after it: how many it
// wrote. It refuses by 2, 8 and 9, in this order, and then writes nothing.
pub fn write_two(
    k: u32,
    acknowledgements: u32,
    return_bit: bool,
    out: &mut [u8],
) -> Result<usize, Refusal>
    ensures { (result, out.new) ≡ write_two_of k acknowledgements return_bit out.old }
{
    if !in_range(k) {
        return Err(Refusal::SponsorCount);
    }
    if acknowledgements >> k != 0 {
        return Err(Refusal::SpareBit);
    }
    let length = length_one(k) + 2;
    if out.len() < length {
        return Err(Refusal::OutputShort);
    }
    put_two(k, acknowledgements, return_bit, out);
    Ok(length)
}
