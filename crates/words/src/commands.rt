// The commands in their slots: the request, whether a plan was stated, its place in the store, each direction, and what it keeps while it waits.
ghost use Rattle.std.specs.Prelude.{◌≡◌, ◌+◌, ◌≤◌, ◌<◌, length, get_or};
ghost use Rattle.words.specs.Sizes.{most_slots, slot_words, request_words, part_words};
ghost use Rattle.words.specs.Slots.{slot_request, part_at_lem, part_in, slot_of_lem, first_words_of, slots, no_slot, region, SlotIs, SlotFits, PartIs, planned_slot, moved_slot};
ghost use Rattle.words.specs.Head.{SlotChanged};

use crate::{HEAD, PORT, Part, SLOT, SLOTS, Slot, waiting};
use srp::{Direction, Request, Transfer, limits};

// Words of a slot: the request's four, whether a plan was stated, the place, and those of each direction.
const PLANNED: usize = 4;

const PLACE_AT: usize = 5;

const OUT: usize = 6;

const IN: usize = OUT + PART;

// so many they are, before those of what the command keeps while it waits
pub const USED: usize = IN + PART;

// Words of a direction: the number of its segments, B, R, h, the current move's next byte and end, and the number of operations handed out for it.
const TOTAL: usize = 1;

const REQUIRED: usize = 2;

const HIGHEST: usize = 3;

const NEXT: usize = 4;

const END: usize = 5;

const NUMBER: usize = 6;

const PART: usize = 7;

// What a number may be; there are as many places as commands can be open.
const MOST_SEGMENTS: u64 = limits::MOST_COPIES as u64;

const PLACES: u64 = SLOTS as u64;

const NUMBERS: u64 = 4294967296;

fn request_of(r: &[u64]) -> Request
    requires { request_words ≤ length r.now }
    ensures { result ≡ slot_request r.now }
{
    Request {
        tag: r[0],
        lun: r[1],
        ucsolnt: r[2] % 2 == 1,
        scsolnt: r[3] % 2 == 1,
    }
}

fn part_of(r: &[u64], at: usize) -> Part
    requires { at + part_words ≤ length r.now }
    ensures { result ≡ part_in r.now at }
{
    let segments = r[at].min(MOST_SEGMENTS);
    let next = r[at + NEXT] % NUMBERS;
    let number = r[at + NUMBER].min(next);
    let transfer = Transfer {
        required: (r[at + REQUIRED] % NUMBERS) as u32,
        highest: (r[at + HIGHEST] % NUMBERS) as u32,
        at: next as u32,
        end: (r[at + END] % NUMBERS) as u32,
        number: number as u32,
    };
    Part {
        segments: segments as u8,
        total: (r[at + TOTAL] % NUMBERS) as u32,
        transfer,
    }
}

// The command that a slot's words say.
fn slot_of(r: &[u64]) -> Slot
    requires { length r.now ≡ slot_words }
    ensures { result ≡ slot_of_lem r.now }
{
    Slot {
        request: request_of(r),
        planned: r[PLANNED] % 2 == 1,
        place: (r[PLACE_AT] % PLACES) as u8,
        out: part_of(r, OUT),
        inn: part_of(r, IN),
        awaits: waiting::awaited_of(r),
    }
}

fn words_of(c: Slot) -> [u64; 20]
    ensures { result ≡ first_words_of c }
{
    let request = c.request;
    let out = c.out;
    let inn = c.inn;
    let o = out.transfer;
    let i = inn.transfer;
    [
        request.tag,
        request.lun,
        request.ucsolnt as u64,
        request.scsolnt as u64,
        c.planned as u64,
        c.place as u64,
        out.segments as u64,
        out.total as u64,
        o.required as u64,
        o.highest as u64,
        o.at as u64,
        o.end as u64,
        o.number as u64,
        inn.segments as u64,
        inn.total as u64,
        i.required as u64,
        i.highest as u64,
        i.at as u64,
        i.end as u64,
        i.number as u64,
    ]
}

// The words of slot i.
pub(crate) fn slot(s: &[u64; PORT], i: usize) -> &[u64]
    requires i_lt_most_slots { i < most_slots }
    ensures words { result.now ≡ region s.now i }
    ensures long { length result.now ≡ slot_words }
{
    let at = SLOT * i + HEAD;
    &s[at..at + SLOT]
}

// The command in slot i.
#[tactic(auto, using(crate::proofs::Slots::slot_at_lem, crate::proofs::Ports::said_fits))]
pub fn load(s: &[u64; PORT], i: usize) -> Slot
    requires i_lt_most_slots { i < most_slots }
    ensures { SlotIs s.now i result }
{
    slot_of(slot(s, i))
}

// The request of the command in slot i.
#[tactic(auto, using(crate::proofs::Slots::slot_at_lem))]
pub fn load_request(s: &[u64; PORT], i: usize) -> Request
    requires i_lt_most_slots { i < most_slots }
    ensures { result ≡ (get_or (slots s.now) i no_slot).request }
{
    request_of(slot(s, i))
}

// Whether a plan was stated for the command in slot i.
#[tactic(auto, using(crate::proofs::Slots::slot_at_lem))]
pub fn load_planned(s: &[u64; PORT], i: usize) -> bool
    requires i_lt_most_slots { i < most_slots }
    ensures { result ≡ (get_or (slots s.now) i no_slot).planned }
{
    slot(s, i)[PLANNED] % 2 == 1
}

// The place in the store of the command in slot i.
#[tactic(auto, using(crate::proofs::Slots::slot_at_lem))]
pub fn load_place(s: &[u64; PORT], i: usize) -> u8
    requires i_lt_most_slots { i < most_slots }
    ensures { (result ≡ (get_or (slots s.now) i no_slot).place) × (result < most_slots) }
{
    (slot(s, i)[PLACE_AT] % PLACES) as u8
}

// Where the words of a direction stand in a slot.
fn part_at(d: Direction) -> usize
    ensures { (result ≡ part_at_lem d) × (result + part_words ≤ slot_words) }
{
    match d {
        Direction::Out => OUT,
        Direction::In => IN,
    }
}

// One direction of the command in slot i.
#[tactic(auto, using(crate::proofs::Slots::slot_part, crate::proofs::Ports::part_fits))]
pub fn load_part(s: &[u64; PORT], i: usize, d: Direction) -> Part
    requires i_lt_most_slots { i < most_slots }
    ensures { PartIs s.now i d result }
{
    part_of(slot(s, i), part_at(d))
}

pub fn save(s: &mut [u64; PORT], i: usize, c: Slot)
    requires i_lt_most_slots { i < most_slots }
    requires slot_fits { SlotFits c }
    ensures { SlotChanged s.old s.new i (λ _. c) }
{
    let at = SLOT * i + HEAD;
    let w = words_of(c);
    let a = waiting::awaited_words(c.awaits);
    crate::put(&mut *s, at, &w);
    crate::put(s, at + USED, &a);
}

// The command in slot `from` put into slot `to` before it.
pub fn shift_slot(s: &mut [u64; PORT], from: usize, to: usize)
    requires from_lt_most_slots { from < most_slots }
    requires to_lt_from { to < from }
    ensures { SlotChanged s.old s.new to (λ _. get_or (slots s.old) from no_slot) }
{
    let source = SLOT * from + HEAD;
    let target = SLOT * to + HEAD;
    s.copy_within(source..source + waiting::USED, target);
}

// The command in slot i states what it requires each way.
pub fn set_plan(s: &mut [u64; PORT], i: usize, out: u32, inn: u32)
    requires i_lt_most_slots { i < most_slots }
    ensures { SlotChanged s.old s.new i (planned_slot out inn) }
{
    let at = SLOT * i + HEAD;
    s[at + PLANNED] = 1;
    s[at + (OUT + REQUIRED)] = out as u64;
    s[at + (IN + REQUIRED)] = inn as u64;
}

// Another h and another current move of a direction of the command in slot i.
pub fn set_move(
    s: &mut [u64; PORT],
    i: usize,
    d: Direction,
    highest: u32,
    next: u32,
    end: u32,
    number: u32,
)
    requires i_lt_most_slots { i < most_slots }
    requires number_le_next { number ≤ next }
    ensures { SlotChanged s.old s.new i (moved_slot d highest next end number) }
{
    let at = SLOT * i + HEAD;
    let k = part_at(d);
    s[at + (k + HIGHEST)] = highest as u64;
    s[at + (k + NEXT)] = next as u64;
    s[at + (k + END)] = end as u64;
    s[at + (k + NUMBER)] = number as u64;
}
