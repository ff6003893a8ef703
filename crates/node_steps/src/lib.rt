// One slot for a member, following or knocking node: a small function by value for each step. An
// inner layer: it takes every record as it is; the calls of `node` and of the bench test records first.
#![tactic(auto)]

ghost use Rattle.std.specs.Prelude.{◌≡◌};
ghost use Rattle.row.specs.Inner.{same_row};
ghost use Rattle.node_record.specs.Held.{setted};
ghost use Rattle.node_steps.specs.Steps.{nothing_heard, state_on_list};
ghost use Rattle.node_steps.specs.Digests.{bits_heard, marks_by, heard_effect, unheard_marks, unheard_effect, decided_where, stays_on};
ghost use Rattle.node_steps.specs.Held.{said_of, digest_of, said_by, decided_by, effect_of, marked_by, noted_by, taken_by, departures, too_few, joins, joined, join, settle, tracking_by};

use cable::Cable;
use message::Reading;
use node_record::{Cause, Held, State, is_following, is_knocking, is_member};
use row::Row;

// What a message says: a yes for its sender and for the members that it acknowledges, a no for the
// other members that its sender sponsors.
#[derive(Clone, Copy)]
pub struct Said {
    pub yes: u32,
    pub no: u32,
}

// What a slot means to all who hold one row: that row; what the message says; and the member that the
// sender decides, 0 for nobody, by the definition `decided_row`. It is worked out once for all of them.
#[derive(Clone, Copy)]
pub struct Digest {
    pub row: Row,
    pub said: Said,
    pub decided: u32,
}

// What the slot's message does to a record: whether it is heard, the marks after it, whether a yes was
// heard since the own slot, and whether a return bit of 1 is heard.
#[derive(Clone, Copy)]
struct Effect {
    heard: bool,
    marks: u32,
    yes: bool,
    returned: bool,
}

// ---- The digest

// The acknowledgements heard; none where nothing is.
fn bits_heard(heard: Reading) -> u32
    ensures { result ≡ bits_heard heard }
{
    match heard {
        Ok(heard) => heard.acknowledgements,
        Err(_) => 0,
    }
}

// What a message says of its sender and of the members that it sponsors. The sender's place in the row
// is looked for once; those that it sponsors stand in the places before it.
fn said_of(s: u32, bits: u32, cable: Cable, row: Row) -> Said
    ensures { result ≡ said_of s bits cable row }
{
    let most = row_sponsors::sponsors(cable, row);
    let order = cable.order;
    let rank = row::rank(order, row, s);
    let here = row::has(row, s);
    let mut yes = nodeset::with(0, s);
    let mut no = 0;
    for earlier in 0..most {
        let j = earlier + 1;
        let node = row_sponsors::back(row, rank, here, j + cable.lag);
        let bit = nodeset::has(bits, j);
        yes = nodeset::with_if(bit, yes, node);
        no = nodeset::with_if(!bit, no, node);
    }
    Said { yes, no }
}

// What a slot of s, in which this is heard, means to those who hold the row.
pub fn digest_of(s: u32, heard: Reading, cable: Cable, row: Row) -> Digest
    ensures { result ≡ digest_of s heard cable row }
{
    let said = said_of(s, bits_heard(heard), cable, row);
    let decided = row_sponsors::decided(cable, row, s);
    Digest { row, said, decided }
}

// Whether the digest is that of the node's row.
fn is_for(digest: Digest, v: Held) -> bool
    ensures { result ≡ same_row digest.row v.row }
{
    row::same(digest.row, v.row)
}

// What the message says, by the digest, if it is that of the node's row.
fn said_by(digest: Digest, s: u32, bits: u32, v: Held) -> Said
    ensures { result ≡ said_by digest s bits v }
{
    if is_for(digest, v) {
        return digest.said;
    }
    said_of(s, bits, v.cable, v.row)
}

// The member that the sender decides, by the digest, if it is that of the node's row.
fn decided_by(digest: Digest, s: u32, v: Held) -> u32
    ensures { result ≡ decided_by digest s v }
{
    if is_for(digest, v) {
        return digest.decided;
    }
    row_sponsors::decided(v.cable, v.row, s)
}

// ---- Steps 1 and 2

// The marks after a heard message that says this: a no for the own message takes the own mark, unless
// a yes was heard before it.
fn marks_by(said: Said, v: Held) -> u32
    ensures { result ≡ marks_by said (setted v) }
{
    let marks = nodeset::union(v.present, said.yes);
    if nodeset::has(said.no, v.own) & !v.yes_heard {
        return nodeset::without(marks, v.own);
    }
    marks
}

// What a heard message does.
fn heard_effect(said: Said, returned: bool, v: Held) -> Effect
    ensures { result ≡ heard_effect said returned (setted v) }
{
    let yes = nodeset::has(said.yes, v.own);
    Effect {
        heard: true,
        marks: marks_by(said, v),
        yes: v.yes_heard | yes,
        returned,
    }
}

// The marks after the own slot: the own one goes on. And after one that is not heard: the sender's
// goes off.
fn unheard_marks(s: u32, v: Held) -> u32
    ensures { result ≡ unheard_marks s (setted v) }
{
    if s == v.own {
        return nodeset::with(v.present, v.own);
    }
    nodeset::without(v.present, s)
}

// What a slot does of which nothing is heard, the own one, too.
fn unheard_effect(s: u32, v: Held) -> Effect
    ensures { result ≡ unheard_effect s (setted v) }
{
    Effect {
        heard: false,
        marks: unheard_marks(s, v),
        yes: (s != v.own) & v.yes_heard,
        returned: false,
    }
}

// What the message does. An unreadable message counts as not heard.
fn effect_of(digest: Digest, s: u32, heard: Reading, v: Held) -> Effect
    ensures { result ≡ effect_of digest s heard v }
{
    let Ok(heard) = heard else {
        return unheard_effect(s, v);
    };
    heard_effect(
        said_by(digest, s, heard.acknowledgements, v),
        heard.return_bit,
        v,
    )
}

// Step 1: the marks, and whether a return bit was heard while knocking.
fn marked(effect: Effect, v: Held) -> Held
    ensures { result ≡ marked_by effect v }
{
    let heard = v.return_heard | (is_knocking(v.state) & effect.returned);
    node_changes::with_marks(effect.marks, effect.yes, heard, v)
}

// Step 2: a knock is noted, or this node knocks.
#[tactic(auto, unfolding(crate::specs::Held::noted_by))]
fn noted(s: u32, heard: bool, v: Held) -> Held
    ensures { result ≡ noted_by s heard v }
{
    let free = v.returning == 0;
    if s == v.own {
        if is_following(v.state) & free {
            return node_changes::with_returning(State::Knocking, v.own, v);
        }
        return v;
    }
    if heard & free {
        return node_changes::with_returning(v.state, s, v);
    }
    v
}

// Step 1 where the sender is in the set, step 2 where it is not.
fn taken(inside: bool, s: u32, effect: Effect, v: Held) -> Held
    ensures { result ≡ taken_by inside s effect v }
{
    if inside {
        return marked(effect, v);
    }
    noted(s, effect.heard, v)
}

// ---- Step 3

// The decided member; 0 where there is none, or the sender is outside the set, by the definition
// `decided_where`: nobody leaves then (`stays_on`).
fn decided_where(inside: bool, m: u32) -> u32
    ensures { result ≡ decided_where inside m }
{
    if inside { m } else { 0 }
}

// Whether nobody leaves: nobody is decided, or the decided member is marked.
fn stays_on(m: u32, v: Held) -> bool
    ensures { result ≡ stays_on m (setted v) }
{
    (m == 0) | nodeset::has(v.present, m)
}

// The row after the departures, none where this node is the one that leaves. The member decided first
// is given: in the shortened row the sender may decide another. At most n members leave.
fn departures(m: u32, s: u32, v: Held) -> Option<Row>
    ensures { result ≡ departures v.cable.n m s v.row v }
{
    let mut row = v.row;
    let mut m = m;
    for _ in 0..v.cable.n {
        if stays_on(m, v) {
            return Some(row);
        }
        if m == v.own {
            return None;
        }
        row = row::without(row, m);
        m = row_sponsors::decided(v.cable, row, s);
    }
    Some(row)
}

// ---- Steps 4 and 5

// Whether fewer than two members remain for a following or knocking node.
fn too_few(v: Held) -> bool
    ensures { result ≡ too_few v }
{
    !is_member(v.state) & (v.row.length < 2)
}

// Step 4: whether no other member is marked.
fn nothing_heard(v: Held) -> bool
    ensures { result ≡ nothing_heard (setted v) }
{
    nodeset::size(v.cable.n, nodeset::without(v.present, v.own)) == 0
}

// Step 5: whether the sender is the nearest member before the returning node.
fn joins(s: u32, v: Held) -> bool
    ensures { result ≡ joins s v }
{
    if v.returning == 0 {
        return false;
    }
    row_sponsors::before(v.cable.order, v.row, v.returning, 1) == s
}

// The state of a node that is on the list.
fn state_on_list(state: State) -> State
    ensures { result ≡ state_on_list state }
{
    match state {
        State::Knocking => State::Member,
        State::Member => State::Member,
        State::Listening => State::Listening,
        State::Following => State::Following,
        State::Out(cause) => State::Out(cause),
    }
}

// The record with the returning node on the list.
fn joined(v: Held) -> Held
    ensures { result ≡ joined v }
{
    Held {
        state: state_on_list(v.state),
        row: row::with(v.cable.order, v.row, v.returning),
        present: nodeset::with(v.present, v.returning),
        returning: 0,
        return_heard: false,
        ..v
    }
}

// Step 5: the returning node joins; a knocking node that was not answered follows again.
fn join(v: Held) -> Held
    ensures { result ≡ join v }
{
    if is_knocking(v.state) & !v.return_heard {
        return node_changes::with_returning(State::Following, 0, v);
    }
    joined(v)
}

// Steps 4 and 5.
fn settle(inside: bool, s: u32, v: Held) -> Held
    ensures { result ≡ settle inside s v }
{
    if too_few(v) {
        return node_changes::fresh(v);
    }
    if nothing_heard(v) {
        return node_changes::leave(Cause::NothingHeard, v);
    }
    if inside & joins(s, v) {
        return join(v);
    }
    v
}

// One slot of a member, following or knocking node, by what the slot means to those who hold one row.
pub fn tracking_slot(s: u32, heard: Reading, digest: Digest, v: Held) -> Held
    ensures { result ≡ tracking_by digest s heard v }
{
    let row = v.row;
    let inside = row::has(row, s);
    let effect = effect_of(digest, s, heard, v);
    if inside & (effect.returned & (v.returning == 0)) {
        return node_changes::leave(Cause::MissedReturn, v);
    }
    let w = taken(inside, s, effect, v);
    let m = decided_where(inside, decided_by(digest, s, v));
    let Some(row) = departures(m, s, w) else {
        return node_changes::leave(Cause::Unconfirmed, w);
    };
    settle(inside, s, node_changes::with_row(row, w))
}
