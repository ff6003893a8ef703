// The refusals of document 01 ("Causes and their numbers"), one case for each row of the table, and
// those that document 02 adds. Which call refuses by which of them is not here.
#![tactic(auto)]

ghost use Rattle.std.specs.Prelude.{◌≡◌};
ghost use Rattle.refusal.specs.Causes.{number_of};

#[derive(Clone, Copy)]
pub enum Refusal {
    RingSize,
    SponsorCount,
    NodeNumber,
    Unsound,
    SlotLimit,
    MessageLength,
    SectionCount,
    SpareBit,
    OutputShort,
    NotItsSlot,
    NotOut,
    PlanLine,
    LedgerUnfit,
    JobCount,
    HasJobs,
    Lag,
    TableLength,
    TableNodes,
    SumPasses,
    LampBases,
}

// The number of the cause: the table of document 01, row by row, so that no number follows from the order
// of the cases.
pub fn number(cause: Refusal) -> u32
    ensures { result ≡ number_of cause }
{
    match cause {
        Refusal::RingSize => 1,
        Refusal::SponsorCount => 2,
        Refusal::NodeNumber => 3,
        Refusal::Unsound => 4,
        Refusal::SlotLimit => 5,
        Refusal::MessageLength => 6,
        Refusal::SectionCount => 7,
        Refusal::SpareBit => 8,
        Refusal::OutputShort => 9,
        Refusal::NotItsSlot => 10,
        Refusal::NotOut => 11,
        Refusal::PlanLine => 12,
        Refusal::LedgerUnfit => 13,
        Refusal::JobCount => 14,
        Refusal::HasJobs => 15,
        Refusal::Lag => 16,
        Refusal::TableLength => 17,
        Refusal::TableNodes => 18,
        Refusal::SumPasses => 19,
        Refusal::LampBases => 20,
    }
}
