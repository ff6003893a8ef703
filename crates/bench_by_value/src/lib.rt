// The bench by value: 32 rows, the first n of which are lent to the bench as its table (all of them
// where n is above 32). The rows after the table stay as they are. A caller of `call` holds no
// reference to a record.
#![tactic(auto)]

ghost use Rattle.std.specs.Prelude.{◌≡◌, min, length};
ghost use Rattle.bench.specs.Kept.{bytes_with};
ghost use Rattle.bench_by_value.specs.ByValue.{table_of, call_with};

use bench::{Command, Outcome, Reply};
use node_record::Held;

// The rows after a call, what there is to print of it, and the number of pairs told.
#[derive(Clone, Copy)]
pub struct Ran {
    pub rows: [Held; 32],
    pub outcome: Outcome,
    pub pairs: u32,
}

// How many rows a table of n nodes takes.
fn size(n: u32) -> usize
    ensures { result ≡ min n 32 }
{
    if n < 32 { n as usize } else { 32 }
}

fn told(rows: [Held; 32], reply: Reply) -> Ran
    ensures { result ≡ record { rows = rows; outcome = reply.outcome; pairs = reply.pairs } }
{
    let outcome = reply.outcome;
    Ran {
        rows,
        outcome,
        pairs: reply.pairs,
    }
}

// Carries a call out on the first n rows, with the lent ledger, counts and slot table; a slot's pairs go
// to the lent bytes.
pub fn call(
    ledger: &mut [[u64; 3]],
    counts: &mut [[[u64; 8]; 32]],
    pairs: &mut [u8],
    slots: &[u8],
    mut rows: [Held; 32],
    n: u32,
    command: Command,
) -> Ran
    ensures { ((result, ledger.new, counts.new) ≡ call_with n command slots.now (length pairs.old) ledger.old counts.old rows)
        × (pairs.new ≡ bytes_with command slots.now ledger.old counts.old (table_of n rows) pairs.old) }
{
    let size = size(n);
    let reply = bench_calls::call(&mut rows[..size], ledger, counts, pairs, slots, command);
    told(rows, reply)
}
