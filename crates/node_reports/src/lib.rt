// The counts of failure reports (document 02, request h). For every node and every job a node keeps
// the number of reports heard: 32 rows, that of node 1 first, of 8 counts, that of job 1 first. They
// stand beside its record, by value; those of a table of nodes are lent. An inner layer: whose report
// counts is decided in node.
#![tactic(auto)]

ghost use Rattle.std.specs.Prelude.{◌≡◌, ◌+◌, cond, length};
ghost use Rattle.nodeset.specs.Sets.{has};
ghost use Rattle.node_reports.specs.Reports.{no_reports_at, row_within, counts_within, row_with, counts_with, heard_by};
ghost use Rattle.node_reports.specs.Inner.{row_greatest, counts_greatest, greatest_of};

// No reports heard.
pub const NO_REPORTS: [[u64; 8]; 32] = [[0; 8]; 32];

// Whether no count of a row is above the slot count.
fn row_within(row: [u64; 8], slots: u64) -> bool
    ensures { result ≡ row_within slots row }
{
    row.iter().all(|&count| count <= slots)
}

// Whether no count of a node is above the slot count.
pub fn counts_within(counts: [[u64; 8]; 32], slots: u64) -> bool
    ensures { result ≡ counts_within slots counts }
{
    counts.iter().all(|&row| row_within(row, slots))
}

// The greatest count of a row.
fn row_greatest(row: [u64; 8]) -> u64
    ensures { result ≡ row_greatest row }
{
    row.iter().fold(0, |best, &count| best.max(count))
}

// The greatest count of a node.
fn counts_greatest(counts: &[[u64; 8]; 32]) -> u64
    ensures { result ≡ counts_greatest counts.now }
{
    counts
        .iter()
        .fold(0, |best, &row| best.max(row_greatest(row)))
}

// The greatest count of all nodes, 0 where there is none.
pub fn greatest(all: &[[[u64; 8]; 32]]) -> u64
    ensures { result ≡ greatest_of all.now }
{
    all.iter()
        .fold(0, |best, counts| best.max(counts_greatest(counts)))
}

// The row with one report more for each job whose bit is 1.
fn row_with(row: [u64; 8], jobs: u8) -> [u64; 8]
    ensures { result ≡ row_with jobs row }
{
    let mut counts = row;
    let mut rest = jobs;
    for count in &mut counts {
        if rest % 2 == 1 {
            *count = count.saturating_add(1);
        }
        rest /= 2;
    }
    counts
}

// A node's counts when it has heard the sender's job byte. A number that is not 1 to 32 names no node,
// and leaves them.
pub fn counts_with(counts: [[u64; 8]; 32], sender: u32, jobs: u8) -> [[u64; 8]; 32]
    ensures { result ≡ counts_with sender jobs counts }
{
    if sender == 0 {
        return counts;
    }
    if 32 < sender {
        return counts;
    }
    let at = sender as usize - 1;
    let mut next = counts;
    next[at] = row_with(next[at], jobs);
    next
}

// Whether the node whose counts stand at index i is in the set.
fn hears(hearers: u32, i: usize) -> bool
    ensures { result ≡ has hearers (i + 1) }
{
    i < 32 && nodeset::has(hearers, i as u32 + 1)
}

// Each of the hearers has heard the sender's job byte. The first counts are those of node 1.
pub fn add_reports(all: &mut [[[u64; 8]; 32]], hearers: u32, sender: u32, jobs: u8)
    ensures { all.new ≡ heard_by hearers sender jobs all.old }
{
    if jobs == 0 {
        return;
    }
    if sender == 0 {
        return;
    }
    if 32 < sender {
        return;
    }
    let row = sender as usize - 1;
    for (i, counts) in all.iter_mut().enumerate() {
        if hears(hearers, i) {
            counts[row] = row_with(counts[row], jobs);
        }
    }
}

// Clears the counts of all nodes if asked to, as set-up does.
pub fn clear_reports(all: &mut [[[u64; 8]; 32]], asked: bool)
    ensures { all.new ≡ cond asked (no_reports_at (length all.old)) all.old }
{
    if asked {
        all.fill(NO_REPORTS);
    }
}
