// Converts recorded messages (document 02, request i): from two sections to three with no jobs, and
// back. A conversion reads one form and writes the other; what the forms are stands in `message`.
// One message at a time; whole files of them, as text, are `converter_text`.
#![tactic(auto)]

ghost use Rattle.std.specs.Prelude.{◌≡◌};
ghost use Rattle.converter.specs.Converter.{job_count_in, read_any_of, to_three_of, to_two_of};

use message::Received;
use refusal::Refusal;

// Brings a message of two sections to three with no jobs, at the start of out, and leaves the bytes
// after it. It refuses by 2, 6, 7, 8 and 9, in this order, and then writes nothing.
pub fn to_three(k: u32, bytes: &[u8], out: &mut [u8]) -> Result<usize, Refusal>
    ensures { (result, out.new) ≡ to_three_of k bytes.now out.old }
{
    let heard = message::read_two(k, bytes).reading?;
    message::write(k, 0, heard.acknowledgements, heard.return_bit, 0, out)
}

// The job count that stands in bytes of three sections: the last byte but one. 0 where there is none, by
// the definition `job_count_in`: bytes that short are refused.
fn job_count_in(bytes: &[u8]) -> u32
    ensures { result ≡ job_count_in bytes.now }
{
    let length = bytes.len();
    if length < 2 {
        return 0;
    }
    bytes[length - 2] as u32
}

// Reads a message of three sections with the job count that stands there. One above 8 is read as if 0
// were due, which it is not: 7.
fn read_any(k: u32, bytes: &[u8]) -> Received
    ensures { result ≡ read_any_of k bytes.now }
{
    let standing = job_count_in(bytes);
    let due = if standing <= 8 { standing } else { 0 };
    message::read(k, due, bytes)
}

// Takes a message of three sections with no jobs back to two, at the start of out, and leaves the bytes
// after it. It refuses by 2, 6, 7, 8, 15 and 9, in this order, and then writes nothing.
pub fn to_two(k: u32, bytes: &[u8], out: &mut [u8]) -> Result<usize, Refusal>
    ensures { (result, out.new) ≡ to_two_of k bytes.now out.old }
{
    let heard = read_any(k, bytes).reading?;
    if job_count_in(bytes) != 0 {
        return Err(Refusal::HasJobs);
    }
    message::write_two(k, heard.acknowledgements, heard.return_bit, out)
}
