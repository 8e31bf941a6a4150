// The calls on a port for callers in C. Each returns 0 or the refusal's number and writes all eight words of its answer, where it has one; else it is
// the call of the same name, on the same words, store and buffers, and promises the same. The listing goes into lent words.
ghost use Rattle.std.specs.Prelude.{◌≡◌, ◌+◌, ◌*◌, ◌≤◌, length, take};
ghost use Rattle.std.proofs.Math.Seq.{paste};
ghost use Rattle.srp.specs.Limits.{most_buffers};
ghost use Rattle.srp.specs.Lists.{over};
ghost use Rattle.words.specs.Sizes.{port_words};
ghost use Rattle.report.specs.Reports.{slot_records};
ghost use Rattle.exports.specs.Calls.{Gives, Plain, Wordless, LoginInC, PlanInC, MoveInC, StepInC, TurnInC, FinishInC, AddInC, WithdrawInC, GrantInC, CloseInC, CountersInC, ListInC};
ghost use Rattle.exports.specs.Arguments.{record_size, record_words, all_words, settings_in, direction_in};

use srp::{Answer, Direction, Record, Refusal, Reply, Settings};
use words::{PORT, STORE};

// Words of a record.
const RECORD: usize = 4;

// The answer's eight words are written, and the number is returned.
pub fn give(answer: &mut [u64; 8], a: Answer) -> u32
    ensures { Gives result answer.new a }
{
    *answer = answer::words_of(a);
    answer::returned(a.reply)
}

// The same where there are no values: the length of the message alone. `words_of` goes by all kinds of reply, and costs some nanoseconds more.
pub fn give_length(answer: &mut [u64; 8], a: Answer) -> u32
    requires { Plain a.reply }
    ensures { Gives result answer.new a }
{
    *answer = [a.wrote as u64, 0, 0, 0, 0, 0, 0, 0];
    answer::returned(a.reply)
}

// The same where all words are 0.
pub fn give_nothing(answer: &mut [u64; 8], r: Result<Reply, Refusal>) -> u32
    requires { Wordless r }
    ensures { Gives result answer.new (record { reply = r; wrote = 0 }) }
{
    *answer = [0; 8];
    answer::returned(r)
}

fn settings_of(n: &[u32; 5], boundary: u64) -> Settings
    ensures { result ≡ settings_in n.now boundary }
{
    let [buffers, maximum, longest, indirect, solicited] = *n;
    Settings {
        buffers,
        maximum,
        boundary,
        longest,
        indirect: indirect != 0,
        solicited: solicited != 0,
    }
}

fn direction_of(n: u32) -> Direction
    ensures { result ≡ direction_in n }
{
    if n == 0 {
        Direction::Out
    } else {
        Direction::In
    }
}

// Words of a port.
pub fn srp_target_words() -> u64
    ensures { result ≡ port_words }
{
    PORT as u64
}

pub fn srp_target_login(
    port: &mut [u64; PORT],
    settings: &[u32; 5],
    boundary: u64,
    own: &[u8; 16],
    msg: &[u8],
    buf: &mut [u8],
    answer: &mut [u64; 8],
) -> u32
    ensures { LoginInC buf.old port.new buf.new
        settings.now boundary own.now msg.now result answer.new }
{
    let c = settings_of(settings, boundary);
    give(answer, login::login(port, c, own, msg, buf))
}

pub fn srp_target_plan(port: &mut [u64; PORT], tag: u64, out: u32, inn: u32) -> u32
    ensures { PlanInC port.old port.new tag out inn result }
{
    answer::returned(transfer::plan(port, tag, out, inn))
}

pub fn srp_target_move(
    port: &mut [u64; PORT],
    tag: u64,
    direction: u32,
    offset: u32,
    count: u32,
) -> u32
    ensures { MoveInC port.old port.new tag direction offset count result }
{
    let d = direction_of(direction);
    answer::returned(transfer::name_move(port, tag, d, offset, count))
}

pub fn srp_target_step(
    port: &mut [u64; PORT],
    store: &[u8; STORE],
    tag: u64,
    direction: u32,
    answer: &mut [u64; 8],
) -> u32
    ensures { StepInC port.old port.new store.now tag direction result answer.new }
{
    let d = direction_of(direction);
    let r = transfer::step(port, store, tag, d);
    match r {
        Ok(Reply::Operation(k, p, n)) => {
            *answer = answer::operation_words(k, p, n);
            0
        }
        Ok(Reply::Done(n)) => {
            *answer = answer::done_words(n);
            0
        }
        Ok(reply) => give(
            answer,
            Answer {
                reply: Ok(reply),
                wrote: 0,
            },
        ),
        Err(refusal) => give_nothing(answer, Err(refusal)),
    }
}

pub fn srp_target_turn(port: &mut [u64; PORT], store: &[u8; STORE], answer: &mut [u64; 8]) -> u32
    ensures { TurnInC port.old port.new store.now result answer.new }
{
    let r = transfer::turn(port, store);
    match r {
        Ok(Reply::Served(tag, d, p, n)) => {
            *answer = answer::served_words(tag, d, p, n);
            0
        }
        Ok(Reply::Idle) => give_nothing(answer, r),
        Ok(reply) => give(
            answer,
            Answer {
                reply: Ok(reply),
                wrote: 0,
            },
        ),
        Err(refusal) => give_nothing(answer, Err(refusal)),
    }
}

pub fn srp_target_finish(
    port: &mut [u64; PORT],
    tag: u64,
    status: u8,
    sense: &[u8],
    buf: &mut [u8],
    answer: &mut [u64; 8],
) -> u32
    ensures { FinishInC port.old buf.old port.new buf.new
        tag status sense.now result answer.new }
{
    give_length(answer, finish::finish(port, tag, status, sense, buf))
}

pub fn srp_target_add(port: &mut [u64; PORT], k: u32) -> u32
    ensures { AddInC port.old port.new k result }
{
    answer::returned(credit::add(port, k))
}

pub fn srp_target_withdraw(port: &mut [u64; PORT], k: u32) -> u32
    ensures { WithdrawInC port.old port.new k result }
{
    answer::returned(credit::withdraw(port, k))
}

pub fn srp_target_grant(port: &mut [u64; PORT], buf: &mut [u8], answer: &mut [u64; 8]) -> u32
    ensures { GrantInC port.old buf.old port.new buf.new result answer.new }
{
    give_length(answer, credit::grant(port, buf))
}

pub fn srp_target_close(
    port: &mut [u64; PORT],
    reason: u32,
    buf: &mut [u8],
    answer: &mut [u64; 8],
) -> u32
    ensures { CloseInC port.old buf.old port.new buf.new reason result answer.new }
{
    give_length(answer, close::close(port, reason, buf))
}

pub fn srp_target_counters(port: &[u64; PORT], answer: &mut [u64; 8]) -> u32
    ensures { CountersInC port.now result answer.new }
{
    let r = report::counters(port);
    match r {
        Ok(Reply::Counts(c)) => {
            *answer = answer::counter_words(c);
            0
        }
        Ok(reply) => give(
            answer,
            Answer {
                reply: Ok(reply),
                wrote: 0,
            },
        ),
        Err(refusal) => give_nothing(answer, Err(refusal)),
    }
}

// A record's words at its place.
fn put_record(records: &mut [u64], i: usize, r: Record)
    requires { record_size * i + record_size ≤ length records.old }
    ensures { records.new ≡ paste records.old (record_size * i) (record_words r) record_size }
{
    let w = [r.tag, r.lun, r.out as u64, r.inn as u64];
    words::put(records, RECORD * i, &w);
}

// The records of the first n commands in words.
fn put_records(records: &mut [u64], port: &[u64; PORT], n: usize)
    requires n_in_bounds { record_size * n ≤ length records.old }
    requires n_le_most_buffers { n ≤ most_buffers }
    ensures { records.new ≡ over (all_words (take n (slot_records port.now))) records.old }
{
    for i in 0..n {
        put_record(&mut *records, i, report::record_at(port, i));
    }
}

pub fn srp_target_list(port: &[u64; PORT], records: &mut [u64], answer: &mut [u64; 8]) -> u32
    ensures { ListInC port.now records.old records.new result answer.new }
{
    match report::held_for(port, records.len() / RECORD) {
        Ok(n) => {
            put_records(records, port, n);
            *answer = [n as u64, 0, 0, 0, 0, 0, 0, 0];
            0
        }
        Err(refusal) => give_nothing(answer, Err(refusal)),
    }
}
