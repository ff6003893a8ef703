// Bytes of a command or of an answer, as many as the longest has, and what is lent; numbers are lowest byte
// first.
pub type Block = [u8; 255];

// So many bytes at a place; a block that ends before has only zeros there.
fn bytes_at<const N: usize>(block: &Block, at: usize) -> [u8; N] {
    let bytes = block.get(at..at.saturating_add(N));
    bytes.and_then(|b| b.try_into().ok()).unwrap_or([0; N])
}

// The number at a place; a block holds none past its end.
pub fn word(block: &Block, at: usize) -> u32 {
    u32::from_le_bytes(bytes_at(block, at))
}

pub fn long_word(block: &Block, at: usize) -> u64 {
    u64::from_le_bytes(bytes_at(block, at))
}

// The bytes go to a place, if there are so many there.
pub fn set_bytes(block: &mut Block, at: usize, bytes: &[u8]) {
    if at <= 255 && bytes.len() <= 255 - at {
        block[at..at + bytes.len()].copy_from_slice(bytes);
    }
}

pub fn set_word(block: &mut Block, at: usize, value: u32) {
    set_bytes(block, at, &value.to_le_bytes());
}

pub fn set_long_word(block: &mut Block, at: usize, value: u64) {
    set_bytes(block, at, &value.to_le_bytes());
}

// The first items, so many, or all if there are fewer.
pub fn first<T>(all: &mut [T], count: usize) -> &mut [T] {
    let end = count.min(all.len());
    &mut all[..end]
}
