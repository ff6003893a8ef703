// The bench (document 01, "The bench"): one function carries out every call over a lent table of node
// records, a lent ledger, lent counts, lent bytes for the pairs and a lent slot table. It has no branches;
// what it decides is in `bench_orders`, the walks over the table in `bench_walks`, what is told, entered and
// counted in `bench_work`.
#![tactic(auto)]

ghost use Rattle.std.specs.Prelude.{◌≡◌, length};
ghost use Rattle.bench.specs.Kept.{bytes_with};
ghost use Rattle.bench.specs.Held.{setted_all, kept_held};
ghost use Rattle.bench_work.specs.Work.{work_of};
ghost use Rattle.bench_orders.specs.Orders.{carried_from};

use bench::{Command, Reply};
use bench_orders::Errand;
use bench_work::Work;
use node_record::Held;

// Inner: has each record of any table do what is ordered. Nothing is tested.
pub fn carry(table: &mut [Held], errand: Errand) -> Work
    ensures { (table.new ≡ carried_from errand 0 table.old) × (result ≡ work_of errand table.old) }
{
    let notes = bench_walks::carry_out(table, errand);
    let reach = bench_work::reach_of(notes);
    let members = bench_walks::look_through(table, reach);
    bench_work::worked(notes, members)
}

// Carries a call out. The nodes whose state a slot changed stand in `pairs`, those that left first, each with
// the kind of its change; who left or joined in an off or a slot is entered in `ledger`; the reports heard in
// a slot are counted in `counts`, which set-up clears. The table is tested once; sets are compared only where
// two members hold different ones. The slot table lent in `slots` is looked at by set-up alone.
// Set-up refuses by 1, 16, 2, 14, 17, 18 and 4, off by 4, 3 and 13, restart by 4, 3 and 11, a slot by 4, 3,
// 13, 5, 8 and 9, a look by 4.
pub fn call(
    table: &mut [Held],
    ledger: &mut [[u64; 3]],
    counts: &mut [[[u64; 8]; 32]],
    pairs: &mut [u8],
    slots: &[u8],
    command: Command,
) -> Reply
    ensures { (record { table = table.new; ledger = ledger.new; counts = counts.new; reply = result } ≡ kept_held command slots.now (length pairs.old) ledger.old counts.old table.old)
        × (pairs.new ≡ bytes_with command slots.now ledger.old counts.old (setted_all table.old) pairs.old) }
{
    let size = table.len();
    let cable = bench_work::cable_in(slots, command);
    let survey = bench_walks::look_over(table, size);
    let fit = bench_work::fits(ledger, survey);
    let beside = bench_work::beside(counts, survey, command, fit, cable, slots.len());
    let order = bench_orders::order_of(command, survey, size, pairs.len(), beside);
    let errand = bench_orders::sent_with(order, survey, beside);
    let work = carry(table, errand);
    bench_work::enter(ledger, survey, order, work);
    bench_work::report(counts, survey, order, command);
    bench_work::tell(pairs, order, work)
}
