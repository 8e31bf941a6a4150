// The line of moves in a port's words: a ring of places, of which it is so many from the first on. Moves join behind the last, and the first one
// leaves without another being moved.
#![tactic(auto)]

ghost use Rattle.std.specs.Prelude.{◌≡◌, true, ◌∷◌, [], ◌++◌, ◌+◌, ◌*◌, ◌%◌, ◌≤◌, ◌<◌, get_or, drop};
ghost use Rattle.srp.specs.Limits.{most_moves};
ghost use Rattle.srp.specs.Line.{joins, put_back};
ghost use Rattle.words.specs.Sizes.{port_words, line_at, ring_at};
ghost use Rattle.words.specs.Line.{first_in, direction_in, behind, count, ring};
ghost use Rattle.line.specs.Changes.{no_place, direction_word, PlaceChanged, LengthChanged, LineChanged};

use srp::{Direction, Place};
use words::{LINE, MOVES, PORT, RING};

// How many places there are.
const PLACES: u64 = MOVES as u64;

// The line's words: its first place, and how many moves are in it.
const FIRST: usize = LINE;

const LENGTH: usize = LINE + 1;

// How many moves are in the line.
#[tactic(auto, using(crate::proofs::Ring::count_read))]
pub fn len(s: &[u64; PORT]) -> usize
    ensures { (result ≡ count s.now) × (result ≤ most_moves) }
{
    s[LENGTH].min(PLACES) as usize
}

// Where the place stands that is j behind the line's first.
fn place_at(s: &[u64; PORT], j: usize) -> usize
    requires j_lt_most_moves { j < most_moves }
    ensures { (result ≡ line_at + (ring_at + 2 * ((first_in (behind s.now) + j) % most_moves))) × (result + 1 < port_words) }
{
    let first = (s[FIRST] % PLACES) as usize;
    RING + 2 * ((first + j) % MOVES)
}

fn direction_of(word: u64) -> Direction
    ensures { result ≡ direction_in word }
{
    if word % 2 == 1 {
        Direction::In
    } else {
        Direction::Out
    }
}

fn word_of(d: Direction) -> u64
    ensures { result ≡ direction_word d }
{
    d as u64
}

// The place that is j behind the line's first.
pub fn at(s: &[u64; PORT], j: usize) -> Place
    requires j_lt_most_moves { j < most_moves }
    ensures { result ≡ get_or (ring s.now) j no_place }
{
    let k = place_at(s, j);
    Place {
        tag: s[k],
        direction: direction_of(s[k + 1]),
    }
}

// The move x at the place that is j behind the line's first.
pub fn put(s: &mut [u64; PORT], j: usize, x: Place)
    requires j_lt_most_moves { j < most_moves }
    ensures { PlaceChanged s.old s.new j x }
{
    let k = place_at(s, j);
    s[k] = x.tag;
    s[k + 1] = word_of(x.direction);
}

// So many moves are in the line.
pub fn set_len(s: &mut [u64; PORT], n: usize)
    requires n_le_most_moves { n ≤ most_moves }
    ensures { LengthChanged s.old s.new n }
{
    s[LENGTH] = n as u64;
}

// A move behind the last of a line that is not full.
fn append(s: &mut [u64; PORT], x: Place)
    requires s_bound { count s.old < most_moves }
    ensures { LineChanged s.old s.new (λ l. l ++ (x ∷ [])) }
{
    let n = len(s);
    put(s, n, x);
    set_len(s, n + 1);
}

// A move joins the line at its end. In words that no login made the line may be full, and stays.
pub fn join(s: &mut [u64; PORT], x: Place)
    ensures { LineChanged s.old s.new (joins true x) }
{
    if len(s) == MOVES {
        return;
    }
    append(s, x);
}

// The first move of the line leaves it.
fn drop_first(s: &mut [u64; PORT])
    requires bound { 1 ≤ count s.old }
    ensures { LineChanged s.old s.new (drop 1) }
{
    let n = len(s);
    let first = s[FIRST] % PLACES;
    s[FIRST] = (first + 1) % PLACES;
    s[LENGTH] = (n - 1) as u64;
}

// The move x, which was the first of the line, was served: it goes behind the last where it has more pieces, and else leaves.
#[tactic(auto, using(crate::proofs::Ring::room_behind))]
pub fn pass(s: &mut [u64; PORT], x: Place, more: bool)
    requires bound { 1 ≤ count s.old }
    ensures { LineChanged s.old s.new (λ l. put_back more x (drop 1 l)) }
{
    drop_first(s);
    if !more {
        return;
    }
    append(s, x);
}
