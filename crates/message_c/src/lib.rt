// The reader, the writer and the converter for callers in Rust and C, which take and give numbers and
// slices alone. Each answers what the function of its name does.
#![tactic(auto)]

ghost use Rattle.std.specs.Prelude.{◌≡◌};
ghost use Rattle.message.specs.Message.{read_of, write_of};
ghost use Rattle.message.specs.TwoSections.{read_two_of, write_two_of};
ghost use Rattle.converter.specs.Converter.{to_three_of, to_two_of};
ghost use Rattle.message_c.specs.Numbers.{Short, outcome_number, reading_number, received_number, written_number};

use message::Reading;
use refusal::Refusal;

// A reading and the job byte as one number.
fn reading_number(reading: Reading, jobs: u8) -> u64
    ensures { result ≡ reading_number jobs reading }
{
    match reading {
        Ok(heard) => {
            0x200_0000_0000
                + jobs as u64 * 0x2_0000_0000
                + heard.return_bit as u64 * 0x1_0000_0000
                + heard.acknowledgements as u64
        }
        Err(cause) => refusal::number(cause) as u64,
    }
}

// Reads a message for k and m: the refusal's number, or 2^41, the job byte from bit 33 on, 2^32 if the
// return bit is set, and the acknowledgements.
#[unsafe(no_mangle)]
pub extern "C" fn message_read(k: u32, m: u32, bytes: &[u8]) -> u64
    ensures { result ≡ received_number (read_of k m bytes.now) }
{
    let received = message::read(k, m, bytes);
    let reading = received.reading;
    reading_number(reading, received.jobs)
}

// What came of writing as one number. Requires no more bytes than a message has. Each crate of exports has
// its own such function, by its own page of numbers, which callers in C read.
fn written_number(written: Result<usize, Refusal>) -> u64
    requires { Short written }
    ensures { result ≡ written_number written }
{
    match written {
        Ok(count) => 0x2_0000_0000 + count as u64,
        Err(cause) => refusal::number(cause) as u64,
    }
}

// Writes a message for k and m to the start of out: the refusal's number, or 2^33 and the number of
// bytes.
#[unsafe(no_mangle)]
pub extern "C" fn message_write(
    k: u32,
    m: u32,
    acknowledgements: u32,
    return_bit: bool,
    jobs: u8,
    out: &mut [u8],
) -> u64
    ensures { (result, out.new) ≡ outcome_number (write_of k m acknowledgements return_bit jobs out.old) }
{
    let written = message::write(k, m, acknowledgements, return_bit, jobs, out);
    written_number(written)
}

// Reads a message of two sections for k. The answer is as that of `message_read`, with no job.
#[unsafe(no_mangle)]
pub extern "C" fn message_read_two(k: u32, bytes: &[u8]) -> u64
    ensures { result ≡ received_number (read_two_of k bytes.now) }
{
    let received = message::read_two(k, bytes);
    let reading = received.reading;
    reading_number(reading, received.jobs)
}

// Writes a message of two sections for k to the start of out. The answer is as that of `message_write`.
#[unsafe(no_mangle)]
pub extern "C" fn message_write_two(
    k: u32,
    acknowledgements: u32,
    return_bit: bool,
    out: &mut [u8],
) -> u64
    ensures { (result, out.new) ≡ outcome_number (write_two_of k acknowledgements return_bit out.old) }
{
    let written = message::write_two(k, acknowledgements, return_bit, out);
    written_number(written)
}

// Brings a message of two sections to three with no jobs, at the start of out. The answer is as that of
// `message_write`.
#[unsafe(no_mangle)]
pub extern "C" fn message_to_three(k: u32, bytes: &[u8], out: &mut [u8]) -> u64
    ensures { (result, out.new) ≡ outcome_number (to_three_of k bytes.now out.old) }
{
    let written = converter::to_three(k, bytes, out);
    written_number(written)
}

// Takes a message of three sections with no jobs back to two, at the start of out. The answer is as that
// of `message_write`.
#[unsafe(no_mangle)]
pub extern "C" fn message_to_two(k: u32, bytes: &[u8], out: &mut [u8]) -> u64
    ensures { (result, out.new) ≡ outcome_number (to_two_of k bytes.now out.old) }
{
    let written = converter::to_two(k, bytes, out);
    written_number(written)
}
