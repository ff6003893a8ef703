// Inner: what a call of the bench tells, enters in the ledger and counts of an order that was carried out, and
// what it reads of a command and of what is lent beside the table (document 01, "The bench"; document 02, a
// and h). No function here has the table.
#![tactic(auto)]

ghost use Rattle.std.specs.Prelude.{◌≡◌, ◌≤◌, length};
ghost use Rattle.node_record.specs.Held.{setted};
ghost use Rattle.bench.specs.Ledger.{ledger_fits};
ghost use Rattle.cable.specs.Cable.{cable_with};
ghost use Rattle.bench_work.specs.Work.{date_by, entered_by, reports_fit_by, choices_in, beside_with, hearers_in, hearers_by, jobs_by, is_start, reported_by};
ghost use Rattle.bench_orders.specs.Orders.{reach_of, outcome_by, pairs_by, reply_by, bytes_told, puts, written_by};

use bench::{Command, Outcome, Reply};
use bench_notes::Notes;
use bench_orders::{Beside, Members, Order, Survey, Turn};
use cable::{Cable, Choices};
use node_record::Held;

// How many records are to be looked through for the distance.
pub fn reach_of(notes: Notes) -> usize
    ensures { result ≡ reach_of notes }
{
    let lists = notes.lists;
    if lists.same {
        return 0;
    }
    32
}

// What there is to print of an order that was carried out, with the list and the distance afterwards.
fn outcome_by(order: Order, list: Option<u32>, apart: u32) -> Outcome
    ensures { result ≡ outcome_by order list apart }
{
    match order {
        Order::Refuse(cause) => Outcome::Refused(cause),
        Order::Start => Outcome::Quiet,
        Order::Off(_) => Outcome::Quiet,
        Order::Restart(_) => Outcome::Quiet,
        Order::Slot(turn) => {
            let fate = turn.fate;
            Outcome::Slot(turn.slot, turn.sender, fate, list, apart)
        }
        Order::Look(slots, sender, fate) => Outcome::Slot(slots, sender, fate, list, apart),
    }
}

// How many pairs are told: of a slot alone.
fn pairs_by(order: Order, notes: Notes) -> u32
    ensures { result ≡ pairs_by order notes }
{
    let told = notes.pairs;
    match order {
        Order::Refuse(_) => 0,
        Order::Start => 0,
        Order::Off(_) => 0,
        Order::Restart(_) => 0,
        Order::Slot(_) => told.count,
        Order::Look(_, _, _) => 0,
    }
}

// How many bytes so many pairs take; none where they do not fit.
fn bytes_told(count: u32, room: usize) -> usize
    ensures { result ≡ bytes_told count room }
{
    if (count <= 32) & (64 <= room) {
        return count as usize * 2;
    }
    0
}

// Writes the first bytes to the buffer. Requires that it has room for them.
fn put_bytes(bytes: [u8; 64], end: usize, pairs: &mut [u8])
    requires { (end ≤ 64) × (end ≤ length pairs.old) }
    ensures { pairs.new ≡ puts bytes end pairs.old }
{
    pairs[..end].copy_from_slice(&bytes[..end]);
}

// What an order that was carried out leaves to tell: what was noted, and the sets of the members where
// they differ.
#[derive(Clone, Copy)]
pub struct Work {
    pub notes: Notes,
    pub members: Members,
}

pub fn worked(notes: Notes, members: Members) -> Work
    ensures { result ≡ record { notes = notes; members = members } }
{
    Work { notes, members }
}

// Inner: what is answered to an order that was carried out.
pub fn reply_of(order: Order, work: Work) -> Reply
    ensures { result ≡ reply_by order work.notes work.members }
{
    let notes = work.notes;
    let members = work.members;
    let lists = notes.lists;
    let list = lists.list;
    let outcome = outcome_by(order, list, members.greatest);
    Reply {
        outcome,
        pairs: pairs_by(order, notes),
    }
}

// Whether the ledger fits the table surveyed.
pub fn fits(ledger: &[[u64; 3]], s: Survey) -> bool
    ensures { result ≡ ledger_fits s.cable.n s.slots ledger.now }
{
    ledger::fits(ledger, s.cable.n, s.slots)
}

// The date of what is entered of an order: the slots done so far; of a slot, its own number.
fn date_of(order: Order, slots: u64) -> u64
    ensures { result ≡ date_by order slots }
{
    let next = ledger::one_more(slots);
    match order {
        Order::Refuse(_) => slots,
        Order::Start => slots,
        Order::Off(_) => slots,
        Order::Restart(_) => slots,
        Order::Slot(_) => next,
        Order::Look(_, _, _) => slots,
    }
}

// Whether the counts lent fit what is asked, where there are so many arrays and this is the greatest
// count: one array per node at set-up and in a slot, and in a slot no count above the slot count.
fn reports_fit(command: Command, s: Survey, arrays: usize, greatest: u64) -> bool
    ensures { result ≡ reports_fit_by command s arrays greatest }
{
    match command {
        Command::SetUp(choices) => arrays == choices.n as usize,
        Command::Off(_) => true,
        Command::Restart(_) => true,
        Command::Slot(_, _, _) => (arrays == s.cable.n as usize) & (greatest <= s.slots),
        Command::Look(_) => true,
    }
}

// The choices that set-up is asked for; those of no cable where nothing is set up.
fn choices_in(command: Command) -> Choices
    ensures { result ≡ choices_in command }
{
    match command {
        Command::SetUp(choices) => choices,
        Command::Off(_) => NO_CHOICES,
        Command::Restart(_) => NO_CHOICES,
        Command::Slot(_, _, _) => NO_CHOICES,
        Command::Look(_) => NO_CHOICES,
    }
}

const NO_CHOICES: Choices = Choices {
    n: 0,
    k: 0,
    m: 0,
    lag: 0,
};

// The cable that set-up is asked for, with the slot table as it is lent.
pub fn cable_in(slots: &[u8], command: Command) -> Cable
    ensures { result ≡ cable_with (choices_in command) slots.now }
{
    cable::cable_with(choices_in(command), slots)
}

// What is lent beside the table, where the ledger fits or not, and this cable is asked for, whose slot
// table was lent with so many places.
pub fn beside(
    counts: &[[[u64; 8]; 32]],
    s: Survey,
    command: Command,
    fits: bool,
    cable: Cable,
    places: usize,
) -> Beside
    ensures { result ≡ beside_with command s fits counts.now cable places }
{
    let greatest = node_reports::greatest(counts);
    let reports = reports_fit(command, s, counts.len(), greatest);
    Beside {
        ledger: fits,
        reports,
        cable,
        places,
    }
}

// Enters who left and who joined in an off or a slot.
pub fn enter(ledger: &mut [[u64; 3]], s: Survey, order: Order, work: Work)
    ensures { ledger.new ≡ entered_by order s.slots work.notes ledger.old }
{
    let date = date_of(order, s.slots);
    let notes = work.notes;
    let moves = notes.moves;
    match order {
        Order::Refuse(_) => {}
        Order::Start => {}
        Order::Off(_) => ledger::enter(ledger, moves.left, moves.joined, date),
        Order::Restart(_) => {}
        Order::Slot(_) => ledger::enter(ledger, moves.left, moves.joined, date),
        Order::Look(_, _, _) => {}
    }
}

// The nodes that count the sender's report in a slot.
fn hearers_in(turn: Turn, listers: u32) -> u32
    ensures { result ≡ hearers_in turn listers }
{
    if turn.heard.is_err() {
        return NOBODY;
    }
    nodeset::without(nodeset::minus(listers, turn.missed), turn.sender)
}

// The set of no node.
const NOBODY: u32 = 0;

// The nodes that count the sender's report in an order.
fn hearers_of(order: Order, listers: u32) -> u32
    ensures { result ≡ hearers_by order listers }
{
    match order {
        Order::Refuse(_) => NOBODY,
        Order::Start => NOBODY,
        Order::Off(_) => NOBODY,
        Order::Restart(_) => NOBODY,
        Order::Slot(turn) => hearers_in(turn, listers),
        Order::Look(_, _, _) => NOBODY,
    }
}

// The job byte that a command has the speaker send.
fn jobs_of(command: Command, speaker: Held) -> u8
    ensures { result ≡ jobs_by command (setted speaker) }
{
    match command {
        Command::SetUp(_) => 0,
        Command::Off(_) => 0,
        Command::Restart(_) => 0,
        Command::Slot(_, _, jobs) => node_sending::jobs_sent(jobs, speaker),
        Command::Look(_) => 0,
    }
}

// Whether an order sets up.
fn is_start(order: Order) -> bool
    ensures { result ≡ is_start order }
{
    match order {
        Order::Refuse(_) => false,
        Order::Start => true,
        Order::Off(_) => false,
        Order::Restart(_) => false,
        Order::Slot(_) => false,
        Order::Look(_, _, _) => false,
    }
}

// Counts the report of a slot's sender, and clears the counts at set-up.
pub fn report(counts: &mut [[[u64; 8]; 32]], s: Survey, order: Order, command: Command)
    ensures { counts.new ≡ reported_by order command s counts.old }
{
    let speaker = s.speaker;
    let hearers = hearers_of(order, s.listers);
    let jobs = jobs_of(command, speaker);
    node_reports::add_reports(counts, hearers, s.sender, jobs);
    node_reports::clear_reports(counts, is_start(order));
}

// Writes the pairs to the buffer, and answers.
pub fn tell(pairs: &mut [u8], order: Order, work: Work) -> Reply
    ensures { (result ≡ reply_by order work.notes work.members) × (pairs.new ≡ written_by order work.notes pairs.old) }
{
    let notes = work.notes;
    let told = notes.pairs;
    let ordered = bench_notes::ordered(told);
    let bytes = ordered.bytes;
    let count = pairs_by(order, notes);
    let end = bytes_told(count, pairs.len());
    put_bytes(bytes, end, pairs);
    reply_of(order, work)
}
