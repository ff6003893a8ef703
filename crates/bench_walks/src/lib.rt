// Inner: the walks over the bench's table (document 01, "The bench"): one looks it over, one has each
// record do what is ordered, one gathers the members' sets; a glimpse reads three records. They have no
// branches; what is decided and done to a record is in bench_orders, what is noted of it in bench_notes.
#![tactic(auto)]

ghost use Rattle.std.specs.Prelude.{◌≡◌, ◌≤◌, length, take};
ghost use Rattle.bench_orders.specs.Survey.{glimpse_of, survey_of, members_of};
ghost use Rattle.bench_orders.specs.Orders.{carried_from, notes_of};

use bench_notes::Notes;
use bench_orders::{Errand, Members, Survey, surveys};
use node_record::Held;

// Looks over the first so many records, or over all if there are fewer.
pub fn look_over(table: &[Held], reach: usize) -> Survey
    ensures { result ≡ survey_of (take reach table.now) }
{
    let mut s = bench_orders::unseen();
    for (i, v) in table[..reach.min(table.len())].iter().enumerate() {
        s = bench_orders::surveyed(s, i, *v);
    }
    s
}

// What a look over a sound table finds that a call needs: cable and slots of the first record, the next
// sender's record, and whether the named node is out. Nothing is tested. Requires a record.
pub fn glimpse(table: &[Held], named: u32) -> Survey
    requires { 1 ≤ length table.now }
    ensures { result ≡ glimpse_of table.now named }
{
    let size = table.len();
    let first = table[surveys::index_of(1, size)];
    let speaker = table[surveys::index_of(surveys::sender_after(first), size)];
    let other = table[surveys::index_of(named, size)];
    surveys::glimpsed(first, speaker, other)
}

// Gathers the members' sets of the first so many records, or of all if there are fewer. This and `look_over`
// are a loop of one line each: one function over the step would be no plainer.
pub fn look_through(table: &[Held], reach: usize) -> Members
    ensures { result ≡ members_of (take reach table.now) }
{
    let mut m = bench_orders::no_members();
    for (i, v) in table[..reach.min(table.len())].iter().enumerate() {
        m = bench_orders::gathered(m, i, *v);
    }
    m
}

// Has each record do what is ordered, and notes what comes of it.
pub fn carry_out(table: &mut [Held], errand: Errand) -> Notes
    ensures { (table.new ≡ carried_from errand 0 table.old) × (result ≡ notes_of errand table.old) }
{
    let mut notes = bench_notes::no_notes();
    for (i, v) in table.iter_mut().enumerate() {
        let after = bench_orders::carried(errand, i, *v);
        notes = bench_notes::noticed(notes, *v, after);
        *v = after;
    }
    notes
}
