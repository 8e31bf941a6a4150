// A port in lent words: a head, a slot for each command that can be open, and the line of moves (crate line). The open commands are the first slots,
// oldest first.
// Any words are a port: each number is read into its range, so that no caller owes anything. What is behind the words in use of
// the head and of a slot is cleared by a login and not read.
#![tactic(auto)]

pub mod commands;
pub mod waiting;

ghost use Rattle.std.specs.Prelude.{◌≡◌, false, ◌+◌, ◌≤◌, length};
ghost use Rattle.std.proofs.Math.Seq.{paste};
ghost use Rattle.srp.specs.Cutting.{bad_boundary};
ghost use Rattle.words.specs.Head.{terms_in, head_words_lem, HeadIs, HeadFits, HeadChanged, CountsFit, counted_of};
ghost use Rattle.words.specs.View.{closed_words};

use srp::{Descriptor, Request, Terms, Transfer, limits};

// Commands that can be open at once, and places of the store.
pub const SLOTS: usize = limits::MOST_BUFFERS as usize;

// Moves that can be in the line at once, two of each command.
pub const MOVES: usize = 2 * SLOTS;

// Words of the head, of a slot, and of a port.
pub const HEAD: usize = 16;

pub const SLOT: usize = 32;

// Where the line's words begin: the first place, how many are in the line, and the places from RING on, of two words each.
pub const LINE: usize = HEAD + SLOTS * SLOT;

pub const RING: usize = LINE + 2;

pub const PORT: usize = RING + 2 * MOVES;

// Bytes of one direction's memory descriptors in the store, of a command's place there, and of the store.
pub const LIST: usize = limits::LONGEST_LIST;

pub const PLACE: usize = 2 * LIST;

pub const STORE: usize = SLOTS * PLACE;

// Words of the head: whether the channel is open, H, W, A, whether a credit request is unanswered, and then what the login settled.
const LIVE: usize = 0;

const HELD: usize = 1;

const WANTED: usize = 2;

const ANNOUNCED: usize = 3;

const UNANSWERED: usize = 4;

const TERMS: usize = 5;

// What a number may be.
const MOST_BUFFERS: u64 = limits::MOST_BUFFERS as u64;

const LARGEST_PIECE: u64 = limits::LARGEST_PIECE as u64;

const SHORTEST_AGREED: u64 = limits::SHORTEST_AGREED as u64;

const AGREED_LENGTHS: u64 = (limits::LONGEST_AGREED - limits::SHORTEST_AGREED + 1) as u64;

// What a port is but for its commands: whether it is open, H, W, A, whether a credit request is unanswered, what the login settled.
#[derive(Clone, Copy)]
pub struct Head {
    pub live: bool,
    pub held: usize,
    pub wanted: u8,
    pub announced: u8,
    pub unanswered: bool,
    pub terms: Terms,
}

// One direction of an open command: how many segments stand in the store, B, and what moves.
#[derive(Clone, Copy)]
pub struct Part {
    pub segments: u8,
    pub total: u32,
    pub transfer: Transfer,
}

// What an open command keeps of its message while it waits for its tables: each direction's descriptor, which stood at another place there.
#[derive(Clone, Copy)]
pub struct Awaited {
    pub waiting: bool,
    pub out: Descriptor,
    pub inn: Descriptor,
}

// An open command. At its place in the store stand its segments; while it waits, the memory descriptors that stood in its message.
#[derive(Clone, Copy)]
pub struct Slot {
    pub request: Request,
    pub planned: bool,
    pub place: u8,
    pub out: Part,
    pub inn: Part,
    pub awaits: Awaited,
}

// A list written into a slice from a place on.
pub fn put<T: Copy>(to: &mut [T], at: usize, from: &[T])
    requires { at + length from.now ≤ length to.old }
    ensures { to.new ≡ paste to.old at from.now (length from.now) }
{
    let end = at + from.len();
    to[at..end].copy_from_slice(from);
}

// Q, where a bad one is read as none.
#[tactic(auto, using(srp::proofs::Boundaries::zero_good))]
pub fn load_boundary(s: &[u64; PORT]) -> u64
    ensures { (result ≡ (terms_in s.now).boundary) × (bad_boundary result ≡ false) }
{
    let word = s[TERMS + 5];
    if boundary::is_bad(word) { 0 } else { word }
}

// What the login settled.
fn terms_of(s: &[u64; PORT]) -> Terms
    ensures { result ≡ terms_in s.now }
{
    Terms {
        maximum: (s[TERMS] % LARGEST_PIECE + 1) as u32,
        boundary: load_boundary(s),
        agreed: (s[TERMS + 1] % AGREED_LENGTHS + SHORTEST_AGREED) as u32,
        formats: (s[TERMS + 2] % 4 * 2) as u32,
        crsolnt: s[TERMS + 3] % 2 == 1,
        losolnt: s[TERMS + 4] % 2 == 1,
    }
}

pub fn get_head(s: &[u64; PORT]) -> Head
    ensures { HeadIs s.now result }
{
    let held = s[HELD].min(MOST_BUFFERS);
    let announced = s[ANNOUNCED].min(MOST_BUFFERS - held);
    Head {
        live: s[LIVE] % 2 == 1,
        held: held as usize,
        wanted: (s[WANTED] % MOST_BUFFERS + 1) as u8,
        announced: announced as u8,
        unanswered: s[UNANSWERED] % 2 == 1,
        terms: terms_of(s),
    }
}

fn head_words(h: Head) -> [u64; 11]
    requires { HeadFits h }
    ensures { result ≡ head_words_lem h }
{
    let t = h.terms;
    [
        h.live as u64,
        h.held as u64,
        (h.wanted - 1) as u64,
        h.announced as u64,
        h.unanswered as u64,
        (t.maximum - 1) as u64,
        (t.agreed - limits::SHORTEST_AGREED) as u64,
        (t.formats / 2) as u64,
        t.crsolnt as u64,
        t.losolnt as u64,
        t.boundary,
    ]
}

pub fn set_head(s: &mut [u64; PORT], h: Head)
    requires head_fits { HeadFits h }
    ensures { HeadChanged s.old s.new (λ _. h) }
{
    let w = head_words(h);
    put(s, 0, &w);
}

// Other counts in the head: H, W, A, and whether a credit request is unanswered.
pub fn set_counts(s: &mut [u64; PORT], h: Head)
    requires counts_fit { CountsFit h.held h.wanted h.announced }
    ensures { HeadChanged s.old s.new (counted_of h.held h.wanted h.announced h.unanswered) }
{
    s[HELD] = h.held as u64;
    s[WANTED] = (h.wanted - 1) as u64;
    s[ANNOUNCED] = h.announced as u64;
    s[UNANSWERED] = h.unanswered as u64;
}

// The closed port: every word 0.
pub fn clear(s: &mut [u64; PORT])
    ensures { s.new ≡ closed_words }
{
    s.fill(0);
}
