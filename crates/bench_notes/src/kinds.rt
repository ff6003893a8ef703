// Whether a state changed, and how, by value.
ghost use Rattle.std.specs.Prelude.{◌≡◌};
ghost use Rattle.bench.specs.Pairs.{same_state, kind_from};

use node_record::State;

pub fn same_state(a: State, b: State) -> bool
    ensures { result ≡ same_state a b }
{
    match a {
        State::Member => node_record::is_member(b),
        State::Listening => node_record::is_listening(b),
        State::Following => node_record::is_following(b),
        State::Knocking => node_record::is_knocking(b),
        State::Out(_) => node_record::is_out(b),
    }
}

// The kind of a change, 1 to 6, as it stands in the lent bytes; 0 where it is none of those of a slot, by
// the definition `kind_from`: no pair of a slot has it (`SlotKinds`).
pub fn kind_from(a: State, b: State) -> u8
    ensures { result ≡ kind_from a b }
{
    if node_record::is_member(a) & node_record::is_out(b) {
        return 1;
    }
    if node_record::is_listening(a) & node_record::is_following(b) {
        return 2;
    }
    if node_record::is_following(a) & node_record::is_knocking(b) {
        return 3;
    }
    if node_record::is_knocking(a) & node_record::is_member(b) {
        return 4;
    }
    if node_record::is_knocking(a) & node_record::is_following(b) {
        return 5;
    }
    if (node_record::is_following(a) | node_record::is_knocking(a)) & node_record::is_listening(b) {
        return 6;
    }
    0
}
