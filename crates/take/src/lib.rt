// Take: a message from the initiator. Document 01's checks in its order, hang_ups, refusal 10, task management,
// credit responses, the initiator's logout.
#![tactic(auto)]

mod fresh;

ghost use Rattle.std.specs.Prelude.{◌≡◌, true, ◌≤◌, length};
ghost use Rattle.srp.specs.Limits.{buffer_size};
ghost use Rattle.words.specs.Head.{head_of};
ghost use Rattle.take.specs.Taking.{HangsUp, Admits, Answers, EndsTask, SettlesCredit, LogsOut, Decides, Takes};

use srp::limits::{CREDIT_TAG, LONGEST_WRITTEN_MESSAGE};
use srp::{Answer, Message, Refusal, Reply, Request, TaskRequest, Terms};
use state::{Ending, opening};
use words::{PORT, STORE};

// The channel is closed, its commands are dropped, and an SRP_T_LOGOUT says so.
fn hang_up(s: &mut [u64; PORT], buf: &mut [u8], f: Refusal) -> Answer
    requires s_value { (head_of s.old).live ≡ true }
    requires buffer_size_in_bounds { buffer_size ≤ length buf.old }
    ensures { HangsUp s.old buf.old s.new buf.new f result }
{
    close::log_out(s, buf, Err(f), answer::reason_of(f))
}

// 22 and 23 of a command or a task request with a tag.
fn admit(s: &[u64; PORT], tag: u64) -> Result<(), Refusal>
    requires s_value { (head_of s.now).live ≡ true }
    ensures { Admits s.now tag result }
{
    if words::get_head(s).announced == 0 {
        return Err(Refusal::NoCredit);
    }
    if state::find(s, tag).is_some() {
        return Err(Refusal::TagOpen);
    }
    Ok(())
}

// A request that is taken and answered in the same call, with its RSP_CODE.
fn answer(
    s: &mut [u64; PORT],
    buf: &mut [u8],
    q: Request,
    code: u8,
    reply: Result<Reply, Refusal>,
) -> Answer
    requires s_value { (head_of s.old).live ≡ true }
    requires bound { 1 ≤ (head_of s.old).announced }
    requires buffer_size_in_bounds { buffer_size ≤ length buf.old }
    ensures { Answers s.old buf.old s.new buf.new q code reply result }
{
    let delta = state::settle(s, 1);
    message::put_answer(buf, message::solicited(q, code), q.tag, code, delta);
    Answer {
        reply,
        wrote: message::ANSWER_SIZE,
    }
}

// A task request that passed its checks: its aborts, and its answer.
fn end_task(s: &mut [u64; PORT], buf: &mut [u8], t: TaskRequest) -> Answer
    requires s_value { (head_of s.old).live ≡ true }
    requires bound { 1 ≤ (head_of s.old).announced }
    requires buffer_size_in_bounds { buffer_size ≤ length buf.old }
    ensures { EndsTask s.old buf.old s.new buf.new t result }
{
    state::drop_commands(s, 0, Ending::Aborted(t));
    let Request { tag, lun, .. } = t.request;
    let reply = Ok(Reply::TaskAnswered { tag, lun });
    answer(s, buf, t.request, task::code_of(t.function), reply)
}

// A credit response with a tag. Refused 25.
fn settle_credit(s: &mut [u64; PORT], tag: u64) -> Result<Answer, Refusal>
    requires s_value { (head_of s.old).live ≡ true }
    ensures { SettlesCredit s.old s.new tag result }
{
    if !words::get_head(s).unanswered || tag != CREDIT_TAG {
        return Err(Refusal::CreditResponse);
    }
    state::set_unanswered(s, false);
    Ok(Answer {
        reply: Ok(Reply::CreditSettled),
        wrote: 0,
    })
}

// The initiator's logout.
fn log_out(s: &mut [u64; PORT]) -> Answer
    ensures { LogsOut s.old s.new result }
{
    words::clear(s);
    Answer {
        reply: Ok(Reply::LoggedOut),
        wrote: 0,
    }
}

// A message of an open channel with these terms, or the refusal at which the channel is hung up: 3, 4, 3, 5, 6, 3, 7, 8, 22, 23; 25.
fn take_message(
    s: &mut [u64; PORT],
    store: &mut [u8; STORE],
    msg: &[u8],
    buf: &mut [u8],
    terms: Terms,
) -> Result<Answer, Refusal>
    requires s_value { (head_of s.old).live ≡ true }
    requires terms_value { terms ≡ (head_of s.old).terms }
    requires buffer_size_in_bounds { buffer_size ≤ length buf.old }
    ensures { Decides s.old store.old buf.old s.new store.new buf.new msg.now result }
{
    match request::read_message(msg, terms.agreed, terms.formats)? {
        Message::Cmd(c) => {
            admit(s, c.request.tag)?;
            Ok(fresh::take_fields(s, store, msg, buf, c))
        }
        Message::TskMgmt(t) => {
            admit(s, t.request.tag)?;
            Ok(end_task(s, buf, t))
        }
        Message::CredRsp(tag) => settle_credit(s, tag),
        Message::ILogout => Ok(log_out(s)),
    }
}

// Takes a message. Refused 1, 21, 3, 4, 3, 5, 6, 3, 7, 8, 22, 23, and 10 where no fetch is named; a credit response 25.
pub fn take(s: &mut [u64; PORT], store: &mut [u8; STORE], msg: &[u8], buf: &mut [u8]) -> Answer
    ensures { Takes
        s.old store.old buf.old s.new store.new buf.new
        msg.now result }
{
    if buf.len() < (LONGEST_WRITTEN_MESSAGE as usize) {
        return answer::refused(Refusal::ShortBuffer);
    }
    let h = match opening::open_head(s) {
        Ok(h) => h,
        Err(f) => return answer::refused(f),
    };
    match take_message(s, store, msg, buf, h.terms) {
        Ok(a) => a,
        Err(f) => hang_up(s, buf, f),
    }
}
