// What a command keeps while it waits for its tables, in the words of its slot behind both directions: whether it waits, and each direction's descriptor.
ghost use Rattle.std.specs.Prelude.{◌≡◌, ◌+◌, ◌≤◌, ◌<◌, length, get_or};
ghost use Rattle.words.specs.Sizes.{most_slots, slot_words, table_words};
ghost use Rattle.words.specs.Slots.{descriptor_in, awaited_in, awaited_words_of, slots, no_slot};

use crate::{Awaited, PORT, commands};
use srp::{Descriptor, limits};

// Words of a slot: whether the command waits, and those of each direction's descriptor.
const WAITING: usize = commands::USED;

const OUT: usize = WAITING + 1;

const IN: usize = OUT + TABLE;

// so many are used of a slot
pub const USED: usize = IN + TABLE;

// Words of a descriptor: its format, its count, its table's length and the total length.
const COUNT: usize = 1;

const LENGTH: usize = 2;

const TOTAL: usize = 3;

const TABLE: usize = 4;

// What a number may be.
const FORMATS: u64 = 3;

const MOST_COPIES: u64 = limits::MOST_COPIES as u64;

const NUMBERS: u64 = 4294967296;

fn descriptor_of(r: &[u64], at: usize) -> Descriptor
    requires { at + table_words ≤ length r.now }
    ensures { result ≡ descriptor_in r.now at }
{
    let count = r[at + COUNT].min(MOST_COPIES);
    Descriptor {
        format: (r[at] % FORMATS) as u8,
        count: count as u8,
        at: 0,
        len: (r[at + LENGTH] % NUMBERS) as u32,
        total: (r[at + TOTAL] % NUMBERS) as u32,
    }
}

pub fn awaited_of(r: &[u64]) -> Awaited
    requires { length r.now ≡ slot_words }
    ensures { result ≡ awaited_in r.now }
{
    Awaited {
        waiting: r[WAITING] % 2 == 1,
        out: descriptor_of(r, OUT),
        inn: descriptor_of(r, IN),
    }
}

pub fn awaited_words(a: Awaited) -> [u64; 9]
    ensures { result ≡ awaited_words_of a }
{
    let out = a.out;
    let inn = a.inn;
    [
        a.waiting as u64,
        out.format as u64,
        out.count as u64,
        out.len as u64,
        out.total as u64,
        inn.format as u64,
        inn.count as u64,
        inn.len as u64,
        inn.total as u64,
    ]
}

// Whether the command in slot i waits for its tables.
#[tactic(auto, using(crate::proofs::Slots::slot_at_lem))]
pub fn load_waiting(s: &[u64; PORT], i: usize) -> bool
    requires i_lt_most_slots { i < most_slots }
    ensures { result ≡ (get_or (slots s.now) i no_slot).awaits.waiting }
{
    commands::slot(s, i)[WAITING] % 2 == 1
}
