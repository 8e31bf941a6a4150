// Tables: those of a command that waits for them, brought by its tag. Refusals 9 and 10 of a command with a fetch named, and the answer to 10.
#![tactic(auto)]

ghost use Rattle.std.specs.Prelude.{◌≡◌, true, ◌+◌, ◌≤◌, length, get_or};
ghost use Rattle.srp.specs.Limits.{buffer_size, most_copies};
ghost use Rattle.srp.specs.Descriptors.{fetched};
ghost use Rattle.words.specs.Sizes.{store_size, list_size};
ghost use Rattle.words.specs.Slots.{TableFits, slots, no_slot};
ghost use Rattle.words.specs.Head.{head_of};
ghost use Rattle.words.specs.View.{given_of};
ghost use Rattle.state.specs.Changes.{FoundAt};
ghost use Rattle.tables.specs.Bringing.{segments_in, tables, answered_by, PartRead, EndsBad, Brings};

use srp::limits::LONGEST_WRITTEN_MESSAGE;
use srp::{Answer, Descriptor, Refusal, Reply, Request};
use state::{Ending, opening};
use wire::layout::SEGMENT;
use words::{Awaited, LIST, PLACE, PORT, Part, STORE, Slot, commands, waiting};

// A command whose tables draw 10 is answered, and ends.
fn end_bad(s: &mut [u64; PORT], i: usize, q: Request, buf: &mut [u8]) -> Answer
    requires s_value { (head_of s.old).live ≡ true }
    requires found_at { FoundAt s.old q.tag i }
    requires q_value { q ≡ (get_or (slots s.old) i no_slot).request }
    requires buffer_size_in_bounds { buffer_size ≤ length buf.old }
    ensures { EndsBad s.old buf.old s.new buf.new q.tag result }
{
    state::drop_commands(s, i, Ending::Finished(q.tag));
    let delta = state::settle(s, 0);
    message::put_answer(buf, q.ucsolnt, q.tag, task::FIELDS_INVALID, delta);
    Answer {
        reply: Err(Refusal::Fields),
        wrote: message::ANSWER_SIZE,
    }
}

// How many segments a direction has: its table's entries, or what stood in its message where none was fetched.
fn segment_count(table: &[u8], d: Descriptor) -> u8
    requires table_fits { TableFits d }
    requires table_len_bound { length table.now ≤ list_size }
    ensures { (result ≡ segments_in table.now d) × (result ≤ most_copies) }
{
    let bytes = if table.is_empty() {
        command::standing_size(d)
    } else {
        table.len()
    };
    (bytes / SEGMENT) as u8
}

// A direction by its table and by what stands in the store from `at` on, unless a field is bad.
fn part_at(store: &[u8; STORE], at: usize, table: &[u8], d: Descriptor) -> Option<Part>
    requires list_size_bound { at + list_size ≤ store_size }
    requires table_fits { TableFits d }
    requires table_len { length table.now ≡ fetched d }
    ensures { PartRead (given_of store.now at d) table.now result }
{
    let end = at + command::standing_size(d);
    let total = command::fields(&store[at..end], table, d)?;
    Some(store::new_part(segment_count(table, d), total as u32))
}

// 9 and 10 of the command in slot i, which waits, and what follows.
fn judge(
    s: &mut [u64; PORT],
    store: &mut [u8; STORE],
    i: usize,
    tag: u64,
    out: &[u8],
    inn: &[u8],
    buf: &mut [u8],
) -> Result<Answer, Refusal>
    requires s_value { (head_of s.old).live ≡ true }
    requires found_at { FoundAt s.old tag i }
    requires no_slot_value { (get_or (slots s.old) i no_slot).awaits.waiting ≡ true }
    requires buffer_size_in_bounds { buffer_size ≤ length buf.old }
    ensures { Brings
        s.old store.old buf.old s.new store.new buf.new
        tag (tables out.now inn.now) (answered_by result) }
{
    let Slot {
        request,
        place,
        awaits,
        ..
    } = commands::load(s, i);
    let Awaited { out: o, inn: n, .. } = awaits;
    if out.len() != (command::fetched_length(o) as usize)
        || inn.len() != (command::fetched_length(n) as usize)
    {
        return Err(Refusal::TableLength);
    }
    let at = PLACE * (place as usize);
    let Some(out_part) = part_at(store, at, out, o) else {
        return Ok(end_bad(s, i, request, buf));
    };
    let Some(in_part) = part_at(store, at + LIST, inn, n) else {
        return Ok(end_bad(s, i, request, buf));
    };
    store::bring(s, store, i, out_part, in_part, out, inn);
    Ok(Answer {
        reply: Ok(Reply::Performed),
        wrote: 0,
    })
}

// The same behind 1, 21, 24 and 33. The refusals that it returns alter nothing and write no message.
fn supply(
    s: &mut [u64; PORT],
    store: &mut [u8; STORE],
    tag: u64,
    out: &[u8],
    inn: &[u8],
    buf: &mut [u8],
) -> Result<Answer, Refusal>
    ensures { Brings
        s.old store.old buf.old s.new store.new buf.new
        tag (tables out.now inn.now) (answered_by result) }
{
    if buf.len() < (LONGEST_WRITTEN_MESSAGE as usize) {
        return Err(Refusal::ShortBuffer);
    }
    opening::open_head(s)?;
    let i = state::find(s, tag).ok_or(Refusal::TagNotOpen)?;
    if !waiting::load_waiting(s, i) {
        return Err(Refusal::Waiting);
    }
    judge(s, store, i, tag, out, inn, buf)
}

// Brings the tables of the command with a tag. Refused 1, 21, 24, 33, 9, 10.
pub fn bring(
    s: &mut [u64; PORT],
    store: &mut [u8; STORE],
    tag: u64,
    out: &[u8],
    inn: &[u8],
    buf: &mut [u8],
) -> Answer
    ensures { Brings
        s.old store.old buf.old s.new store.new buf.new
        tag (tables out.now inn.now) result }
{
    supply(s, store, tag, out, inn, buf).unwrap_or_else(answer::refused)
}
