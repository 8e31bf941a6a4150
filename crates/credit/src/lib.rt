// Credit: buffers added to those wanted and withdrawn from them, and a grant of what is owed.
#![tactic(auto)]

ghost use Rattle.std.specs.Prelude.{◌≡◌, true, ◌≤◌, length};
ghost use Rattle.srp.specs.Limits.{buffer_size};
ghost use Rattle.words.specs.Head.{head_of};
ghost use Rattle.credit.specs.Buffers.{MayChange, Adds, Withdraws, MayGrant, WritesRequest, Grants};

use srp::limits::{LONGEST_WRITTEN_MESSAGE, MOST_BUFFERS};
use srp::{Answer, Refusal, Reply};
use state::opening;
use wire::layout::SHORT_SIZE;
use words::{Head, PORT};

// The head of an open channel, whose W k buffers are to change. Refused 21, 11.
fn changeable(s: &[u64; PORT], k: u32) -> Result<Head, Refusal>
    ensures { MayChange s.now k result }
{
    let h = opening::open_head(s)?;
    if k == 0 {
        return Err(Refusal::Argument);
    }
    Ok(h)
}

// Adds buffers to those wanted. Refused 21, 11, 28.
pub fn add(s: &mut [u64; PORT], k: u32) -> Result<Reply, Refusal>
    ensures { Adds s.old s.new k result }
{
    let wanted = changeable(s, k)?.wanted;
    let room = MOST_BUFFERS - wanted;
    if (room as u32) < k {
        return Err(Refusal::Wanted);
    }
    state::set_wanted(s, wanted + (k as u8));
    Ok(Reply::Performed)
}

// Withdraws buffers from those wanted. Refused 21, 11, 28.
pub fn withdraw(s: &mut [u64; PORT], k: u32) -> Result<Reply, Refusal>
    ensures { Withdraws s.old s.new k result }
{
    let wanted = changeable(s, k)?.wanted;
    if (wanted as u32) <= k {
        return Err(Refusal::Wanted);
    }
    state::set_wanted(s, wanted - (k as u8));
    Ok(Reply::Performed)
}

// The head of a channel that is owed a credit request, for a buffer of `room` bytes. Refused 1, 21, 26, 27.
fn grantable(s: &[u64; PORT], room: usize) -> Result<Head, Refusal>
    ensures { MayGrant s.now room result }
{
    if room < (LONGEST_WRITTEN_MESSAGE as usize) {
        return Err(Refusal::ShortBuffer);
    }
    let h = opening::open_head(s)?;
    if h.unanswered {
        return Err(Refusal::Unanswered);
    }
    if (h.wanted as usize) <= (h.announced as usize) + h.held {
        return Err(Refusal::NotOwed);
    }
    Ok(h)
}

// A credit request is written.
fn write_request(s: &mut [u64; PORT], buf: &mut [u8], crsolnt: bool) -> Answer
    requires s_value { (head_of s.old).live ≡ true }
    requires crsolnt_value { crsolnt ≡ (head_of s.old).terms.crsolnt }
    requires buffer_size_in_bounds { buffer_size ≤ length buf.old }
    ensures { WritesRequest s.old buf.old s.new buf.new result }
{
    state::set_unanswered(s, true);
    let delta = state::settle(s, 0);
    message::put_credit_request(buf, crsolnt, delta);
    Answer {
        reply: Ok(Reply::Performed),
        wrote: SHORT_SIZE,
    }
}

// Writes an SRP_CRED_REQ with what is owed. Refused 1, 21, 26, 27.
pub fn grant(s: &mut [u64; PORT], buf: &mut [u8]) -> Answer
    ensures { Grants s.old buf.old s.new buf.new result }
{
    match grantable(s, buf.len()) {
        Ok(h) => write_request(s, buf, h.terms.crsolnt),
        Err(f) => answer::refused(f),
    }
}
