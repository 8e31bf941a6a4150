// Plan, move, step and turn: what a command requires each way, the moves that its owner names, and their RDMA operations one after the other, of a move
// that the owner chooses or of all moves by turns.
#![tactic(auto)]

ghost use Rattle.std.specs.Prelude.{◌≡◌, true, false, ◌≤◌, ◌<◌, ◌+◌, max, get_or};
ghost use Rattle.srp.specs.Limits.{most_copies};
ghost use Rattle.srp.specs.Calls.{next_in};
ghost use Rattle.cut.specs.Walk.{next_wrapped};
ghost use Rattle.words.specs.Sizes.{store_size, most_slots, list_size};
ghost use Rattle.words.specs.Slots.{slots, no_slot, place_at_lem};
ghost use Rattle.words.specs.Head.{head_of};
ghost use Rattle.words.specs.View.{side_of};
ghost use Rattle.state.specs.Changes.{FoundAt};
ghost use Rattle.transfer.specs.Stepping.{Plans, Names, HandsOut, Steps, StepsPlanned};
ghost use Rattle.transfer.specs.Turning.{FirstIs, Serves, Turns};

use srp::{Direction, Kind, Piece, Place, Refusal, Reply};
use state::{Leaving, moves, opening};
use wire::layout::SEGMENT;
use words::{LIST, PLACE, PORT, Part, STORE, commands, waiting};

// What is handed out of a direction's current move: nothing, as it has no piece left; or a piece. Each with the number handed out for the move, and a
// piece with whether more are left.
#[derive(Clone, Copy)]
pub enum Handed {
    Nothing(u32),
    One(Piece, u32, bool),
}

// States what a command requires each way. Refused 21, 24, 33, 30.
pub fn plan(s: &mut [u64; PORT], tag: u64, out: u32, inn: u32) -> Result<Reply, Refusal>
    ensures { Plans s.old s.new tag out inn result }
{
    opening::open_head(s)?;
    let i = opening::find_ready(s, tag)?;
    if commands::load_planned(s, i) {
        return Err(Refusal::Planned);
    }
    commands::set_plan(s, i, out, inn);
    Ok(Reply::Performed)
}

// The move of a planned command that does not wait, in slot i; one with pieces joins the line. Refused 31, 32.
fn begin(
    s: &mut [u64; PORT],
    tag: u64,
    i: usize,
    d: Direction,
    offset: u32,
    count: u32,
) -> Result<Reply, Refusal>
    requires s_value { (head_of s.old).live ≡ true }
    requires found_at { FoundAt s.old tag i }
    requires no_slot_value { (get_or (slots s.old) i no_slot).awaits.waiting ≡ false }
    requires no_slot_value_2 { (get_or (slots s.old) i no_slot).planned ≡ true }
    ensures { Names s.old s.new tag d offset count result }
{
    let p = commands::load_part(s, i, d);
    let t = p.transfer;
    let movable = (t.required as u64).min(p.total as u64);
    if movable < offset as u64 {
        return Err(Refusal::Offset);
    }
    if t.at < t.end {
        return Err(Refusal::Unfinished);
    }
    let end = ((offset as u64) + (count as u64)).min(movable) as u32;
    commands::set_move(s, i, d, t.highest, offset, end, 0);
    if end <= offset {
        return Ok(Reply::Performed);
    }
    line::join(s, Place { tag, direction: d });
    Ok(Reply::Performed)
}

// Names a move: so many bytes of a direction from an offset on, trimmed at min(R, B). Refused 21, 24, 33, 29, 31, 32.
pub fn name_move(
    s: &mut [u64; PORT],
    tag: u64,
    d: Direction,
    offset: u32,
    count: u32,
) -> Result<Reply, Refusal>
    ensures { Names s.old s.new tag d offset count result }
{
    opening::open_head(s)?;
    let i = opening::find_ready(s, tag)?;
    if !commands::load_planned(s, i) {
        return Err(Refusal::Unplanned);
    }
    begin(s, tag, i, d, offset, count)
}

// Where the memory descriptors of a direction stand in the store.
fn place_for(place: u8, d: Direction) -> usize
    requires { place < most_slots }
    ensures { (result ≡ place_at_lem d place) × (result + list_size ≤ store_size) }
{
    let at = (place as usize) * PLACE;
    match d {
        Direction::Out => at,
        Direction::In => at + LIST,
    }
}

// The next piece of a direction's current move, or done.
fn next_for(
    s: &[u64; PORT],
    store: &[u8; STORE],
    place: u8,
    p: Part,
    d: Direction,
    maximum: u32,
) -> Option<Piece>
    requires place_lt_most_slots { place < most_slots }
    requires segments_le_most_copies { p.segments ≤ most_copies }
    requires maximum_value { maximum ≡ (head_of s.now).terms.maximum }
    ensures { result ≡ next_wrapped (next_in (head_of s.now).terms (side_of store.now (place_at_lem d place) p)) }
{
    let at = place_for(place, d);
    let end = at + (p.segments as usize) * SEGMENT;
    let piece = cut::next_piece(&store[at..end], maximum, p.transfer.at, p.transfer.end);
    cut::end_at_boundary(piece, words::load_boundary(s))
}

// The next piece of a direction's current move, of the command in slot i, is handed out.
fn hand_out(
    s: &mut [u64; PORT],
    store: &[u8; STORE],
    i: usize,
    d: Direction,
    maximum: u32,
) -> Handed
    requires i_lt_most_slots { i < most_slots }
    requires maximum_value { maximum ≡ (head_of s.old).terms.maximum }
    ensures { HandsOut s.old s.new store.now i d result }
{
    let p = commands::load_part(s, i, d);
    let place = commands::load_place(s, i);
    let Some(piece) = next_for(s, store, place, p, d, maximum) else {
        return Handed::Nothing(p.transfer.number);
    };
    let next = p.transfer.at + piece.len;
    let highest = p.transfer.highest.max(next);
    let number = p.transfer.number + 1;
    commands::set_move(s, i, d, highest, next, p.transfer.end, number);
    Handed::One(piece, number, next < p.transfer.end)
}

// The next piece of the planned command in slot i, or done; the last piece takes the move out of the line.
fn step_planned(
    s: &mut [u64; PORT],
    store: &[u8; STORE],
    tag: u64,
    i: usize,
    d: Direction,
    maximum: u32,
) -> Result<Reply, Refusal>
    requires s_value { (head_of s.old).live ≡ true }
    requires found_at { FoundAt s.old tag i }
    requires maximum_value { maximum ≡ (head_of s.old).terms.maximum }
    ensures { StepsPlanned s.old s.new store.now tag d result }
{
    match hand_out(s, store, i, d, maximum) {
        Handed::Nothing(n) => Ok(Reply::Done(n)),
        Handed::One(piece, n, more) => {
            let operation = Reply::Operation(Kind::from(d), piece, n);
            if more {
                return Ok(operation);
            }
            moves::leave(s, Leaving::Handed(Place { tag, direction: d }));
            Ok(operation)
        }
    }
}

// The next piece of a direction's current move, or done, each with the number handed out for the move. Refused 21, 24, 33, 29.
pub fn step(
    s: &mut [u64; PORT],
    store: &[u8; STORE],
    tag: u64,
    d: Direction,
) -> Result<Reply, Refusal>
    ensures { Steps s.old s.new store.now tag d result }
{
    let h = opening::open_head(s)?;
    let i = opening::find_ready(s, tag)?;
    if !commands::load_planned(s, i) {
        return Err(Refusal::Unplanned);
    }
    step_planned(s, store, tag, i, d, h.terms.maximum)
}

// Serves the move x, the first of the line, whose command is in slot i.
fn serve(
    s: &mut [u64; PORT],
    store: &[u8; STORE],
    x: Place,
    i: usize,
    maximum: u32,
) -> Result<Reply, Refusal>
    requires s_value { (head_of s.old).live ≡ true }
    requires first_is { FirstIs s.old x }
    requires found_at { FoundAt s.old x.tag i }
    requires maximum_value { maximum ≡ (head_of s.old).terms.maximum }
    ensures { Serves s.old s.new store.now result }
{
    let d = x.direction;
    match hand_out(s, store, i, d, maximum) {
        Handed::Nothing(_) => Ok(Reply::Idle),
        Handed::One(piece, n, more) => {
            line::pass(s, x, more);
            Ok(Reply::Served(x.tag, d, piece, n))
        }
    }
}

// The next piece of the first move in the line, which goes to its end if pieces remain; idle with an empty line. Refused 21.
pub fn turn(s: &mut [u64; PORT], store: &[u8; STORE]) -> Result<Reply, Refusal>
    ensures { Turns s.old s.new store.now result }
{
    let h = opening::open_head(s)?;
    if line::len(s) == 0 {
        return Ok(Reply::Idle);
    }
    let x = line::at(s, 0);
    let Some(i) = state::find(s, x.tag) else {
        return Ok(Reply::Idle);
    };
    serve(s, store, x, i, h.terms.maximum)
}
