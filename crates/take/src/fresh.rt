// A command behind 22 and 23: refusal 10 where no fetch is named, and how it comes to be open, ready or waiting for its tables.
ghost use Rattle.std.specs.Prelude.{◌≡◌, true, ◌≤◌, length};
ghost use Rattle.srp.specs.Limits.{buffer_size};
ghost use Rattle.srp.specs.Descriptors.{fetched};
ghost use Rattle.command.specs.Reading.{LiesIn, FitsIn};
ghost use Rattle.words.specs.Head.{head_of};
ghost use Rattle.take.specs.Taking.{PartRead, NewlyRead, Enters, DecidesFields};

use srp::{Answer, Command, Descriptor, Refusal, Reply, Request};
use wire::layout::SEGMENT;
use words::{Awaited, PORT, Part, STORE};

// A command that passed its checks is open from here on. What stands in its message of both directions is stored, and nothing else of the message kept.
fn enter(
    s: &mut [u64; PORT],
    store: &mut [u8; STORE],
    msg: &[u8],
    c: Command,
    out: Part,
    inn: Part,
    awaits: Awaited,
) -> Answer
    requires s_value { (head_of s.old).live ≡ true }
    requires bound { 1 ≤ (head_of s.old).announced }
    requires fits_in { FitsIn msg.now c }
    requires newly_read { NewlyRead msg.now c out inn awaits }
    ensures { Enters s.old store.old s.new store.new msg.now c result }
{
    let out_list = command::standing(msg, c.out);
    let in_list = command::standing(msg, c.inn);
    store::enter(s, store, c.request, out, inn, awaits, out_list, in_list);
    let Request { tag, lun, .. } = c.request;
    Answer {
        reply: Ok(Reply::NewCommand {
            tag,
            lun,
            cdb: c.cdb,
            waits: awaits.waiting,
        }),
        wrote: 0,
    }
}

// A direction for which no table is fetched, unless a field is bad: its segments stand in the message.
fn part_of(msg: &[u8], d: Descriptor) -> Option<Part>
    requires lies_in { LiesIn msg.now d }
    requires no_table { fetched d ≡ 0 }
    ensures { PartRead msg.now d result }
{
    let standing = command::standing(msg, d);
    let total = command::fields(standing, &[], d)?;
    Some(store::new_part((standing.len() / SEGMENT) as u8, total as u32))
}

// A command without a fetch is judged by 10 here. One with a fetch named waits for its tables, and what they will be judged by is kept.
pub fn take_fields(
    s: &mut [u64; PORT],
    store: &mut [u8; STORE],
    msg: &[u8],
    buf: &mut [u8],
    c: Command,
) -> Answer
    requires s_value { (head_of s.old).live ≡ true }
    requires bound { 1 ≤ (head_of s.old).announced }
    requires buffer_size_in_bounds { buffer_size ≤ length buf.old }
    requires fits_in { FitsIn msg.now c }
    ensures { DecidesFields
        s.old store.old buf.old s.new store.new buf.new
        msg.now c result }
{
    if command::waits(c) {
        let none = store::new_part(0, 0);
        let awaits = Awaited {
            waiting: true,
            out: command::placeless(c.out),
            inn: command::placeless(c.inn),
        };
        return enter(s, store, msg, c, none, none, awaits);
    }
    let Some(out) = part_of(msg, c.out) else {
        return crate::answer(
            s,
            buf,
            c.request,
            task::FIELDS_INVALID,
            Err(Refusal::Fields),
        );
    };
    let Some(inn) = part_of(msg, c.inn) else {
        return crate::answer(
            s,
            buf,
            c.request,
            task::FIELDS_INVALID,
            Err(Refusal::Fields),
        );
    };
    enter(s, store, msg, c, out, inn, store::not_waiting())
}
