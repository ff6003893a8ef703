// The counts of failure reports: one loaded from a command, and all put out, eight bytes each.
use run_io::block;
use run_io::block::Block;
use run_io::output::Sink;
use std::io::Write;

// A row or job that there is not leaves all counts.
fn set_count(counts: &mut [[u64; 8]; 32], row: u8, job: u8, count: u64) {
    if row < 32 && job < 8 {
        counts[row as usize][job as usize] = count;
    }
}

// The command's bytes are a row, a job and the count that stands there then.
pub fn load(counts: &mut [[u64; 8]; 32], block: &Block) {
    set_count(counts, block[0], block[1], block::long_word(block, 2));
}

pub fn put_counts<W: Write>(output: &mut Sink<W>, counts: &[[u64; 8]; 32]) {
    output.put_long_words(counts.as_flattened());
}
