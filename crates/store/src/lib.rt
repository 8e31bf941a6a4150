// A new command: a slot behind the open ones, and its memory descriptors at a place of the store that no open command uses; and the tables of a command that
// waited for them, at its place.
#![tactic(auto)]

mod supply;

ghost use Rattle.std.specs.Prelude.{◌≡◌, false, not, ◌<◌, get_or, position};
ghost use Rattle.words.specs.Sizes.{most_slots};
ghost use Rattle.words.specs.Head.{head_of};
ghost use Rattle.words.specs.View.{opens};
ghost use Rattle.store.specs.Places.{trues, Marked, Free, Holds, new_part_lem, Entered};

use srp::{Request, Transfer};
pub use supply::{bring, not_waiting};
use words::{Awaited, Head, LIST, PLACE, PORT, Part, SLOTS, STORE, Slot, commands};

// The last place.
const LAST: usize = SLOTS - 1;

// Which places the open commands use, but for the one in slot `but`.
fn places(s: &[u64; PORT], but: usize) -> [bool; SLOTS]
    ensures { Marked but (opens s.now) result }
{
    let held = words::get_head(s).held;
    let mut used = [false; SLOTS];
    for i in 0..held {
        if i != but {
            let k = commands::load_place(s, i) as usize;
            used[k] = true;
        }
    }
    used
}

// The first place that is not used, if there is one.
fn first_unused(used: &[bool; SLOTS]) -> Option<usize>
    ensures { result ≡ position not used.now }
{
    used.iter().position(|u| !*u)
}

// The first place that is not used.
fn first_free(used: [bool; SLOTS]) -> usize
    requires { trues used < most_slots }
    ensures { (result < most_slots) × (get_or used result false ≡ false) }
{
    first_unused(&used).unwrap_or(LAST)
}

// A place that no open command uses.
fn free_place(s: &[u64; PORT], held: usize) -> usize
    requires held_value { held ≡ (head_of s.now).held }
    requires held_lt_most_slots { held < most_slots }
    ensures { Free held (opens s.now) result }
{
    let used = places(s, held);
    first_free(used)
}

// A direction with so many segments, of which nothing was planned, named or handed out.
pub fn new_part(segments: u8, total: u32) -> Part
    ensures { result ≡ new_part_lem segments total }
{
    Part {
        segments,
        total,
        transfer: Transfer::default(),
    }
}

// One command more, one announced buffer less.
pub fn enter(
    s: &mut [u64; PORT],
    store: &mut [u8; STORE],
    r: Request,
    o: Part,
    n: Part,
    a: Awaited,
    out: &[u8],
    inn: &[u8],
)
    requires announced_nonzero { 0 < (head_of s.old).announced }
    requires holds { Holds out.now o a.out }
    requires holds_2 { Holds inn.now n a.inn }
    ensures { Entered s.old store.old s.new store.new r o n a out.now inn.now }
{
    let h = words::get_head(s);
    let held = h.held;
    let k = free_place(s, held);
    words::put(&mut *store, k * PLACE, out);
    words::put(store, k * PLACE + LIST, inn);
    let c = Slot {
        request: r,
        planned: false,
        place: k as u8,
        out: o,
        inn: n,
        awaits: a,
    };
    commands::save(&mut *s, held, c);
    words::set_counts(
        s,
        Head {
            held: held + 1,
            announced: h.announced - 1,
            ..h
        },
    );
}
