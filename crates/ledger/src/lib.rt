// The ledger of leavings (document 02, request a): for each node how often it left, how often it joined,
// and the slot of its last leaving. Whether a ledger fits a table, and the ledger after a call.
// An inner layer: it tests nothing but the ledger; the bench's call asks it. That ledger and counts are the
// tallies of what happened is specs/Tallies and specs/Reported.
#![tactic(auto)]

ghost use Rattle.std.specs.Prelude.{◌≡◌, ◌+◌, leb};
ghost use Rattle.bench.specs.Ledger.{all_fit, ledger_fits, counts_fit};
ghost use Rattle.ledger.specs.Entered.{entered, entry_after, one_more};

// The places of an entry's figures. An entry is three numbers and no struct, since ledgers are lent so
// (`bench_calls::call`).
pub const LEFT: usize = 0;

pub const JOINED: usize = 1;

pub const LAST: usize = 2;

// Whether a count is not above the slot count plus one.
fn count_fits(slots: u64, count: u64) -> bool
    ensures { result ≡ leb count (slots + 1) }
{
    count.saturating_sub(1) <= slots
}

// Whether no count of an entry is above the slot count plus one.
fn counts_fit(slots: u64, entry: [u64; 3]) -> bool
    ensures { result ≡ counts_fit slots entry }
{
    count_fits(slots, entry[LEFT]) & count_fits(slots, entry[JOINED])
}

// Whether the ledger has n entries, and no count in it is above the slot count plus one.
pub fn fits(ledger: &[[u64; 3]], n: u32, slots: u64) -> bool
    ensures { result ≡ ledger_fits n slots ledger.now }
{
    ledger.len() == n as usize && ledger.iter().all(|&entry| counts_fit(slots, entry))
}

// One more, as far as a u64 counts: the definition's name for std's method.
pub fn one_more(count: u64) -> u64
    ensures { result ≡ one_more count }
{
    count.saturating_add(1)
}

// An entry after a call in which its node left, joined, or neither.
fn entry_after(date: u64, left: bool, joined: bool, entry: [u64; 3]) -> [u64; 3]
    ensures { result ≡ entry_after date left joined entry }
{
    if left {
        return [one_more(entry[LEFT]), entry[JOINED], date];
    }
    if joined {
        return [entry[LEFT], one_more(entry[JOINED]), entry[LAST]];
    }
    entry
}

// Enters who left and who joined, and when: nodes 1 to 32.
pub fn enter(ledger: &mut [[u64; 3]], left: u32, joined: u32, date: u64)
    ensures { ledger.new ≡ entered date left joined ledger.old }
{
    for i in 0..ledger.len().min(32) {
        let x = i as u32 + 1;
        ledger[i] = entry_after(
            date,
            nodeset::has(left, x),
            nodeset::has(joined, x),
            ledger[i],
        );
    }
}
