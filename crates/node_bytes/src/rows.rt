// 32 records as rows: one of them loaded, and all of them put out as bytes.
use crate::bytes;
use node_record::Held;
use run_io::output::Sink;
use std::io::Write;

// The row becomes the record; a row that there is not leaves all rows.
pub fn load(rows: &mut [Held; 32], row: u8, record: Held) {
    if row < 32 {
        rows[usize::from(row)] = record;
    }
}

pub fn put_rows<W: Write>(output: &mut Sink<W>, rows: &[Held; 32]) {
    for &row in rows {
        let mut record = [0u8; 255];
        bytes::set_held(&mut record, row);
        output.put_all(&record[..usize::from(bytes::RECORD)]);
    }
}
