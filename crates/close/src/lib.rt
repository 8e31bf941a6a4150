// The end of a channel by the target: its commands are dropped, and an SRP_T_LOGOUT says so. The owner closes with a reason; a hang-up of take ends
// the channel in the same way.
#![tactic(auto)]

ghost use Rattle.std.specs.Prelude.{◌≡◌, true, ◌≤◌, length};
ghost use Rattle.srp.specs.Limits.{buffer_size};
ghost use Rattle.words.specs.Head.{head_of};
ghost use Rattle.close.specs.Closing.{LogsOut, Closes};

use srp::limits::LONGEST_WRITTEN_MESSAGE;
use srp::{Answer, Refusal, Reply};
use state::opening;
use wire::layout::SHORT_SIZE;
use words::PORT;

// Closes the open channel with a reason, and answers with a reply.
pub fn log_out(
    s: &mut [u64; PORT],
    buf: &mut [u8],
    reply: Result<Reply, Refusal>,
    reason: u32,
) -> Answer
    requires s_value { (head_of s.old).live ≡ true }
    requires buffer_size_in_bounds { buffer_size ≤ length buf.old }
    ensures { LogsOut s.old buf.old s.new buf.new reply reason result }
{
    let terms = words::get_head(s).terms;
    words::clear(s);
    message::put_logout(buf, terms.losolnt, reason);
    Answer {
        reply,
        wrote: SHORT_SIZE,
    }
}

// Closes the channel with a reason. Refused 1, 21.
pub fn close(s: &mut [u64; PORT], reason: u32, buf: &mut [u8]) -> Answer
    ensures { Closes s.old buf.old s.new buf.new reason result }
{
    if buf.len() < (LONGEST_WRITTEN_MESSAGE as usize) {
        return answer::refused(Refusal::ShortBuffer);
    }
    if let Err(f) = opening::open_head(s) {
        return answer::refused(f);
    }
    log_out(s, buf, Ok(Reply::Performed), reason)
}
