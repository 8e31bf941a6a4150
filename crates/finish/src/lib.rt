// Finish: a command ends with its status, sense and residuals.
#![tactic(auto)]

ghost use Rattle.std.specs.Prelude.{◌≡◌, true, List, ℕ, ◌≤◌, length};
ghost use Rattle.srp.specs.Limits.{buffer_size, longest_sense};
ghost use Rattle.srp.specs.Writing.{residual_of};
ghost use Rattle.srp.specs.Calls.{bad_sense_lem};
ghost use Rattle.words.specs.Head.{head_of};
ghost use Rattle.words.specs.View.{side_of};
ghost use Rattle.state.specs.Changes.{FoundAt};
ghost use Rattle.finish.specs.Finishing.{HeaderIs, MayFinish, Finishes, EndsCommand};

use message::Header;
use srp::limits::{LONGEST_SENSE, LONGEST_WRITTEN_MESSAGE};
use srp::{Answer, Refusal, Reply, Residual};
use state::{Ending, opening};
use wire::layout::RSP_SIZE;
use words::{PORT, Part, Slot, commands};

const CHECK_CONDITION: u8 = 0x02;

// Sense that is too long, or that stands beside another status.
fn bad_sense(status: u8, sense: &[u8]) -> bool
    ensures { result ≡ bad_sense_lem status sense.now }
{
    LONGEST_SENSE < sense.len() || (!sense.is_empty() && status != CHECK_CONDITION)
}

fn residual(p: Part) -> Residual
    ensures { (st : List ℕ) (at : ℕ) → result ≡ residual_of (side_of st at p) }
{
    let t = p.transfer;
    if p.total < t.required {
        Residual::Over(t.required - p.total)
    } else if t.highest < p.total {
        Residual::Under(p.total - t.highest)
    } else {
        Residual::Even
    }
}

// What the response says but for its sense.
fn header(c: Slot, status: u8, delta: u32) -> Header
    ensures { HeaderIs c status delta result }
{
    Header {
        solnt: message::solicited(c.request, status),
        delta,
        tag: c.request.tag,
        status,
        out: residual(c.out),
        inn: residual(c.inn),
    }
}

// The command in slot i ends.
fn end_command(
    s: &mut [u64; PORT],
    i: usize,
    tag: u64,
    status: u8,
    sense: &[u8],
    buf: &mut [u8],
) -> Answer
    requires s_value { (head_of s.old).live ≡ true }
    requires found_at { FoundAt s.old tag i }
    requires sense_len_bound { length sense.now ≤ longest_sense }
    requires buffer_size_in_bounds { buffer_size ≤ length buf.old }
    ensures { EndsCommand s.old buf.old s.new buf.new tag status sense.now result }
{
    let c = commands::load(s, i);
    state::drop_commands(s, i, Ending::Finished(tag));
    let delta = state::settle(s, 0);
    let h = header(c, status, delta);
    message::put_response(buf, h, sense);
    Answer {
        reply: Ok(Reply::Performed),
        wrote: RSP_SIZE + sense.len(),
    }
}

// The slot of a command that may end with this status and sense, for a buffer of `room` bytes. Refused 1, 21, 11, 24, 33.
fn finishable(
    s: &[u64; PORT],
    tag: u64,
    status: u8,
    sense: &[u8],
    room: usize,
) -> Result<usize, Refusal>
    ensures { MayFinish s.now tag status sense.now room result }
{
    if room < (LONGEST_WRITTEN_MESSAGE as usize) {
        return Err(Refusal::ShortBuffer);
    }
    opening::open_head(s)?;
    if bad_sense(status, sense) {
        return Err(Refusal::Argument);
    }
    opening::find_ready(s, tag)
}

// Ends a command. Refused 1, 21, 11, 24, 33.
pub fn finish(s: &mut [u64; PORT], tag: u64, status: u8, sense: &[u8], buf: &mut [u8]) -> Answer
    ensures { Finishes s.old buf.old s.new buf.new tag status sense.now result }
{
    match finishable(s, tag, status, sense, buf.len()) {
        Ok(i) => end_command(s, i, tag, status, sense, buf),
        Err(f) => answer::refused(f),
    }
}
