// The tables of a command that waited for them: written at its place of the store, over what stood in its message.
// A port that calls made has no two commands at one place. Words that nobody made may have, so such a command is first given a place of its own.
ghost use Rattle.std.specs.Prelude.{◌≡◌, ◌<◌};
ghost use Rattle.words.specs.Sizes.{most_slots};
ghost use Rattle.words.specs.Slots.{not_waiting_lem};
ghost use Rattle.words.specs.Head.{head_of};
ghost use Rattle.words.specs.View.{opens};
ghost use Rattle.store.specs.Places.{Free, Holding, Carried, Supplied};

use srp::Descriptor;
use words::{Awaited, LIST, PLACE, PORT, Part, STORE, Slot, commands};

// A place that no other open command uses than the one in slot i: its own place, or else a free one.
fn own_place(s: &[u64; PORT], i: usize, place: u8) -> usize
    requires i_bound { i < (head_of s.now).held }
    requires place_lt_most_slots { place < most_slots }
    ensures { Free i (opens s.now) result }
{
    let used = crate::places(s, i);
    let own = place as usize;
    if !used[own] {
        return own;
    }
    crate::first_free(used)
}

// The bytes of a place at another place too.
fn carry(store: &mut [u8; STORE], from: usize, to: usize)
    requires from_lt_most_slots { from < most_slots }
    requires to_lt_most_slots { to < most_slots }
    ensures { Carried store.old store.new from to }
{
    if from == to {
        return;
    }
    let at = from * PLACE;
    store.copy_within(at..at + PLACE, to * PLACE);
}

// No table is awaited.
pub fn not_waiting() -> Awaited
    ensures { result ≡ not_waiting_lem }
{
    Awaited {
        waiting: false,
        out: Descriptor::default(),
        inn: Descriptor::default(),
    }
}

// The command in slot i has its tables, and with them these directions: it waits no longer.
pub fn bring(
    s: &mut [u64; PORT],
    store: &mut [u8; STORE],
    i: usize,
    o: Part,
    n: Part,
    out: &[u8],
    inn: &[u8],
)
    requires i_bound { i < (head_of s.old).held }
    requires holding { Holding out.now o × Holding inn.now n }
    ensures { Supplied i s.old store.old s.new store.new o n out.now inn.now }
{
    let r = commands::load_request(s, i);
    let place = commands::load_place(s, i);
    let k = own_place(s, i, place);
    carry(&mut *store, place as usize, k);
    words::put(&mut *store, k * PLACE, out);
    words::put(store, k * PLACE + LIST, inn);
    let a = not_waiting();
    let c = Slot {
        request: r,
        planned: false,
        place: k as u8,
        out: o,
        inn: n,
        awaits: a,
    };
    commands::save(s, i, c);
}
