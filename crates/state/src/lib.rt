// What changes an open port: its credit, a credit request unanswered, the commands that end and the moves that leave the line; and the search for a tag.
// Each change is said of the port that the words show, for every store: none of these touches the store.
#![tactic(auto)]

pub mod moves;
pub mod opening;

ghost use Rattle.std.specs.Prelude.{◌≡◌, ◌+◌, ◌-◌, ◌≤◌};
ghost use Rattle.srp.specs.Credit.{with_wanted, with_unanswered};
ghost use Rattle.srp.specs.Limits.{most_buffers};
ghost use Rattle.words.specs.Head.{head_of};
ghost use Rattle.state.specs.Changes.{FoundIs, ends, NoneEnds, without_slots, without_ended, Alters, Settled};

use srp::{Place, Request, TaskRequest};
use words::{HEAD, Head, PORT, SLOT, commands};

// Which open commands end: the one with a tag, or those that a task request aborts.
#[derive(Clone, Copy)]
pub enum Ending {
    Finished(u64),
    Aborted(TaskRequest),
}

// Which moves leave the line: one whose last piece a single step handed out, or those of commands that end.
#[derive(Clone, Copy)]
pub enum Leaving {
    Handed(Place),
    Ended(Ending),
}

// The slot of the open command with a tag.
pub fn find(s: &[u64; PORT], tag: u64) -> Option<usize>
    ensures { FoundIs s.now tag result }
{
    let held = words::get_head(s).held;
    for i in 0..held {
        if s[SLOT * i + HEAD] == tag {
            return Some(i);
        }
    }
    None
}

fn ended(which: Ending, r: Request) -> bool
    ensures { result ≡ ends which r }
{
    match which {
        Ending::Finished(tag) => tag == r.tag,
        Ending::Aborted(t) => task::aborts(t, r),
    }
}

// Takes commands that end out of their slots; none of them stands before slot `first`. Those that stay keep their order, and those before the first
// that ends are not written.
fn drop_slots(s: &mut [u64; PORT], first: usize, which: Ending)
    requires first_bound { first ≤ (head_of s.old).held }
    requires none_ends { NoneEnds which s.old first }
    ensures { Alters s.old s.new (without_slots which) }
{
    let h = words::get_head(s);
    let held = h.held;
    let mut kept = first;
    for i in first..held {
        let r = commands::load_request(s, i);
        if !ended(which, r) {
            if kept < i {
                commands::shift_slot(s, i, kept);
            }
            kept += 1;
        }
    }
    words::set_counts(s, Head { held: kept, ..h });
}

// Ends commands, of which none stands before slot `first`: their moves leave the line, and they their slots.
pub fn drop_commands(s: &mut [u64; PORT], first: usize, which: Ending)
    requires first_bound { first ≤ (head_of s.old).held }
    requires none_ends { NoneEnds which s.old first }
    ensures { Alters s.old s.new (without_ended which) }
{
    moves::leave(s, Leaving::Ended(which));
    drop_slots(s, first, which);
}

// D, or 0 where it is negative.
fn due(wanted: u8, announced: u8, held: usize) -> u8
    requires { announced + held ≤ most_buffers }
    ensures { result ≡ wanted - (announced + held) }
{
    wanted.saturating_sub(announced + (held as u8))
}

// A call's endings are done, and it used so many announced buffers: its message carries what is due.
pub fn settle(s: &mut [u64; PORT], used: u8) -> u32
    requires used_bound { used ≤ (head_of s.old).announced }
    ensures { Settled used result s.old s.new }
{
    let h = words::get_head(s);
    let left = h.announced - used;
    let delta = due(h.wanted, left, h.held);
    let announced = left + delta;
    words::set_counts(s, Head { announced, ..h });
    delta as u32
}

// W is another number of 1 to 16.
pub fn set_wanted(s: &mut [u64; PORT], wanted: u8)
    requires le_wanted { 1 ≤ wanted }
    requires wanted_le_most_buffers { wanted ≤ most_buffers }
    ensures { Alters s.old s.new (λ p. with_wanted p wanted) }
{
    let h = words::get_head(s);
    words::set_counts(s, Head { wanted, ..h });
}

// A credit request is unanswered from now on, or no longer.
pub fn set_unanswered(s: &mut [u64; PORT], unanswered: bool)
    ensures { Alters s.old s.new (λ p. with_unanswered p unanswered) }
{
    let h = words::get_head(s);
    words::set_counts(s, Head { unanswered, ..h });
}
