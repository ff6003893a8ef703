// One slot for a listening node, by its held record. An inner layer: it takes every record as it is;
// the calls of `node` test records first.
#![tactic(auto)]

ghost use Rattle.std.specs.Prelude.{◌≡◌};
ghost use Rattle.node_hearing.specs.Hearing.{overheard, with_done, clean};
ghost use Rattle.node_hearing.specs.Held.{window_end, listening_by};

use cable::Cable;
use message::Reading;
use node_record::{Held, Window};

// The window with one more slot of it, and this count of slots done.
fn overheard(s: u32, heard: Reading, done: u32, w: Window) -> Window
    ensures { result ≡ with_done done (overheard s heard w) }
{
    let Ok(heard) = heard else {
        return Window { done, ..w };
    };
    let run = nodeset::run(heard.acknowledgements);
    Window {
        done,
        heard: nodeset::with(w.heard, s),
        shortest: w.shortest.min(run),
        return_seen: w.return_seen | heard.return_bit,
        last: w.last,
    }
}

fn clean(cable: Cable, w: Window) -> bool
    ensures { result ≡ clean cable w }
{
    let count = nodeset::size(cable.n, w.heard);
    (2 <= count) & (!w.return_seen & (ring::ks(cable, count) <= w.shortest))
}

fn window_end(w: Window, v: Held) -> Held
    ensures { result ≡ window_end w v }
{
    if !clean(v.cable, w) {
        return node_changes::listening_after(0, v);
    }
    if w.last == w.heard {
        return node_changes::following_with(w.heard, v);
    }
    node_changes::listening_after(w.heard, v)
}

// One slot of a listening node, to which nothing may be handed over in its own slot. A window that has n slots done already ends, whatever its count.
pub fn listening_slot(s: u32, heard: Reading, v: Held) -> Held
    ensures { result ≡ listening_by s heard v }
{
    let done = v.listening.done.saturating_add(1);
    let w = overheard(s, heard, done, v.listening);
    if done < v.cable.n {
        return node_changes::with_window(w, v);
    }
    window_end(w, v)
}
