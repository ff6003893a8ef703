// Runs calls of the bench for a test; it is proved safe and ending, and no more.
// Commands from standard input act on 32 rows, the first of which
// are the table, on 33 entries, the first of which are the ledger, on 33 arrays of 32 rows of 8 counts,
// the first of which are the counts lent, and on a slot table; the answers go to standard output. Each
// command is a letter, a byte and further bytes. Numbers have four bytes, figures and counts eight,
// lowest first; `lost` is a byte, 1 for yes; `row`, `job` and `jobs` are a byte each; input that ends
// within a command counts as followed by zeros.
//
//   N size                      the table is the first `size` rows, all if fewer; no answer
//   L row record                row 0 to 31 becomes this record; no answer
//   M entries                   the ledger is the first `entries` entries, all if fewer; no answer
//   G entry left joined last    entry 0 to 32 becomes these figures; no answer
//   A arrays                    the counts lent are the first `arrays` arrays, all if fewer; no answer
//   C array row job count       this count becomes that; arrays are 0 to 32, rows 0 to 31, jobs 0 to 7,
//                               and any other leaves all counts; no answer
//   K array                     the counts of array 0 to 32; any other number stands for array 0
//   O places slots              the slot table lent has so many places, a byte each; no answer
//   U room n k m lag            set-up
//   F room a                    off
//   R room a                    restart
//   S room lost missed jobs     one slot
//   Q room lost                 looks at the table
//
// `room` is the length of the lent buffer, each byte of it 0xA5. A call is answered by a byte, 0 or the
// refusal's number; by 26 bytes of what it tells (`answers`); by the whole buffer; by all 32 rows; and
// by all 33 entries, three figures each. K is answered by the array's 2048 bytes, row by row. Any other
// letter ends the run. Before the first command the table has no row, and a row is of no node; the
// ledger has no entry, and all figures are 0; no array is lent, and all counts are 0; the slot table has
// no place.
#![tactic(auto)]

mod answers;

use cable::Choices;
use node_bytes::{bytes, counts, rows};
use node_record::Held;
use run_io::block::Block;
use run_io::commands::Program;
use run_io::output::Sink;
use run_io::{block, commands};
use std::io::Write;

// What there is from one command to the next: the rows, how many are the table, the entries, how many are
// the ledger, the arrays, how many are lent, the slot table and how many places it has. The arrays are lent
// to it, as a struct that holds arrays of arrays of arrays is not made in one go.
#[derive(Drop)]
struct State<'a> {
    rows: [Held; 32],
    size: u32,
    entries: [[u64; 3]; 33],
    ledger: usize,
    arrays: &'a mut [[[u64; 8]; 32]; 33],
    lent_arrays: usize,
    slots: Block,
    places: u8,
}

#[derive(Clone, Copy)]
enum Command {
    Table,
    LoadRow,
    Ledger,
    LoadEntry,
    Arrays,
    LoadCount,
    PutCounts,
    Slots,
    SetUp,
    Off,
    Restart,
    Slot,
    Look,
}

fn choices_of(block: &Block) -> Choices {
    Choices {
        n: block::word(block, 0),
        k: block::word(block, 4),
        m: block::word(block, 8),
        lag: block::word(block, 12),
    }
}

fn put_array<W: Write>(output: &mut Sink<W>, arrays: &[[[u64; 8]; 32]; 33], i: u8) {
    let counts = arrays.get(usize::from(i));
    counts::put_counts(output, counts.unwrap_or(&arrays[0]));
}

impl State<'_> {
    // An entry, array, row or job that there is not leaves all of them.
    fn load_entry(&mut self, entry: u8, block: &Block) {
        if let Some(figures) = self.entries.get_mut(usize::from(entry)) {
            *figures = [
                block::long_word(block, 0),
                block::long_word(block, 8),
                block::long_word(block, 16),
            ];
        }
    }

    fn load_count(&mut self, array: u8, block: &Block) {
        if let Some(counts) = self.arrays.get_mut(usize::from(array)) {
            counts::load(counts, block);
        }
    }

    // Carries a call out and answers. Lends the first entries, arrays, bytes of the buffer and places.
    fn call<W: Write>(&mut self, output: &mut Sink<W>, room: u8, command: bench::Command) {
        let mut buffer = [0xA5; 255];
        let lent = &mut buffer[..usize::from(room)];
        let slots = self.slots;
        let (entries, arrays) = (&mut self.entries, &mut *self.arrays);
        let ran = bench_by_value::call(
            block::first(entries, self.ledger),
            block::first(arrays, self.lent_arrays),
            lent,
            &slots[..usize::from(self.places)],
            self.rows,
            self.size,
            command,
        );
        self.rows = ran.rows;
        answers::put_told(output, &ran);
        output.put_all(lent);
        rows::put_rows(output, &self.rows);
        output.put_long_words(self.entries.as_flattened());
    }
}

impl Program for State<'_> {
    type Command = Command;

    fn command_of(letter: u8) -> Option<Command> {
        match letter {
            b'N' => Some(Command::Table),
            b'L' => Some(Command::LoadRow),
            b'M' => Some(Command::Ledger),
            b'G' => Some(Command::LoadEntry),
            b'A' => Some(Command::Arrays),
            b'C' => Some(Command::LoadCount),
            b'K' => Some(Command::PutCounts),
            b'O' => Some(Command::Slots),
            b'U' => Some(Command::SetUp),
            b'F' => Some(Command::Off),
            b'R' => Some(Command::Restart),
            b'S' => Some(Command::Slot),
            b'Q' => Some(Command::Look),
            _ => None,
        }
    }

    fn body(command: Command, byte: u8) -> u8 {
        match command {
            Command::LoadRow => bytes::RECORD,
            Command::LoadEntry => 24,
            Command::LoadCount => 10,
            Command::Slots => byte,
            Command::SetUp => 16,
            Command::Off | Command::Restart => 4,
            Command::Slot => 6,
            Command::Look => 1,
            Command::Table | Command::Ledger | Command::Arrays | Command::PutCounts => 0,
        }
    }

    fn run<W: Write>(&mut self, output: &mut Sink<W>, command: Command, byte: u8, block: &Block) {
        let a = block::word(block, 0);
        let lost = block[0] == 1;
        match command {
            Command::Table => self.size = u32::from(byte),
            Command::LoadRow => rows::load(&mut self.rows, byte, bytes::held_of(block)),
            Command::Ledger => self.ledger = usize::from(byte),
            Command::LoadEntry => self.load_entry(byte, block),
            Command::Arrays => self.lent_arrays = usize::from(byte),
            Command::LoadCount => self.load_count(byte, block),
            Command::PutCounts => put_array(output, self.arrays, byte),
            Command::Slots => {
                self.slots = *block;
                self.places = byte;
            }
            Command::SetUp => self.call(output, byte, bench::Command::SetUp(choices_of(block))),
            Command::Off => self.call(output, byte, bench::Command::Off(a)),
            Command::Restart => self.call(output, byte, bench::Command::Restart(a)),
            Command::Slot => {
                let missed = block::word(block, 1);
                self.call(output, byte, bench::Command::Slot(lost, missed, block[5]))
            }
            Command::Look => self.call(output, byte, bench::Command::Look(lost)),
        }
    }
}

fn main(rt: HostRuntime) {
    let mut arrays = [node_reports::NO_REPORTS; 33];
    let mut state = State {
        rows: [node::NO_NODE; 32],
        size: 0,
        entries: [[0; 3]; 33],
        ledger: 0,
        arrays: &mut arrays,
        lent_arrays: 0,
        slots: [0; 255],
        places: 0,
    };
    commands::run_all(&rt, &mut state);
}
