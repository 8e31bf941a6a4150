// What an answer is in numbers, for callers that have no enums; and the answer of a refusal without a message.
#![tactic(auto)]

ghost use Rattle.std.specs.Prelude.{◌≡◌, ℕ};
ghost use Rattle.srp.specs.Refusals.{number_of, conduct_of, reason_in};
ghost use Rattle.srp.specs.Answers.{refusing};
ghost use Rattle.srp.specs.declared.Reply.TheVariants.{NewCommand, Operation, Done, Served, Counts};
ghost use Rattle.answer.specs.Words.{answer_words};

use srp::{Answer, Counters, Direction, Kind, Piece, Refusal, Reply};
use wire::layout::CDB;

// The kind of message taken, in take's answer.
const COMMAND: u64 = 1;

const TASK: u64 = 2;

const CREDIT_RESPONSE: u64 = 3;

const LOGOUT: u64 = 4;

// The papers' number of a refusal.
pub fn number_of(refusal: Refusal) -> u32
    ensures { result ≡ number_of refusal }
{
    refusal as u32
}

// The reason in the SRP_T_LOGOUT of a hang-up.
pub fn reason_of(r: Refusal) -> u32
    ensures { result ≡ reason_in (conduct_of r) }
{
    match r {
        Refusal::OutFormat => 6,
        Refusal::InFormat => 7,
        Refusal::OutCount => 8,
        Refusal::InCount => 9,
        _ => 0,
    }
}

// A refusal without a message.
pub fn refused(f: Refusal) -> Answer
    ensures { result ≡ refusing f }
{
    Answer {
        reply: Err(f),
        wrote: 0,
    }
}

// The number that a call from C returns.
pub fn returned(reply: Result<Reply, Refusal>) -> u32
    ensures { result ≡ Rattle.srp.specs.Answers.returned reply }
{
    match reply {
        Ok(_) => 0,
        Err(f) => number_of(f),
    }
}

// A number as 64 bits, a negative one in two's complement.
pub fn word(d: i64) -> u64
    ensures { result ≡ Rattle.answer.specs.Words.word d }
{
    d.cast_unsigned()
}

// The eight words that a call from C answers: those of an operation.
pub fn operation_words(k: Kind, p: Piece, n: u32) -> [u64; 8]
    ensures { (wrote : ℕ) → result ≡ answer_words (record { reply = Ok (Operation k p n); wrote = wrote }) }
{
    [
        1,
        k as u64,
        p.handle as u64,
        p.address,
        p.len as u64,
        p.offset as u64,
        n as u64,
        0,
    ]
}

// Those of a step that says done.
pub fn done_words(n: u32) -> [u64; 8]
    ensures { (wrote : ℕ) → result ≡ answer_words (record { reply = Ok (Done n); wrote = wrote }) }
{
    [0, 0, 0, 0, 0, 0, n as u64, 0]
}

// Those of a turn that serves a move.
pub fn served_words(tag: u64, d: Direction, p: Piece, n: u32) -> [u64; 8]
    ensures { (wrote : ℕ) → result ≡ answer_words (record { reply = Ok (Served tag d p n); wrote = wrote }) }
{
    [
        1,
        Kind::from(d) as u64,
        p.handle as u64,
        p.address,
        p.len as u64,
        p.offset as u64,
        n as u64,
        tag,
    ]
}

// Those of the counters.
pub fn counter_words(c: Counters) -> [u64; 8]
    ensures { (wrote : ℕ) → result ≡ answer_words (record { reply = Ok (Counts c); wrote = wrote }) }
{
    [
        c.wanted as u64,
        c.announced as u64,
        c.held as u64,
        word(c.owed),
        0,
        0,
        0,
        0,
    ]
}

// Those of a command.
pub fn command_words(wrote: usize, tag: u64, lun: u64, cdb: usize, waits: bool) -> [u64; 8]
    ensures { result ≡ answer_words (record { reply = Ok (NewCommand tag lun cdb waits); wrote = wrote }) }
{
    [
        wrote as u64,
        COMMAND,
        tag,
        lun,
        CDB as u64,
        cdb as u64,
        waits as u64,
        0,
    ]
}

// Those of any answer.
pub fn words_of(a: Answer) -> [u64; 8]
    ensures { result ≡ answer_words a }
{
    let wrote = a.wrote as u64;
    let Ok(reply) = a.reply else {
        return [wrote, 0, 0, 0, 0, 0, 0, 0];
    };
    match reply {
        Reply::Performed => [wrote, 0, 0, 0, 0, 0, 0, 0],
        Reply::NewCommand {
            tag,
            lun,
            cdb,
            waits,
        } => command_words(a.wrote, tag, lun, cdb, waits),
        Reply::TaskAnswered { tag, lun } => [wrote, TASK, tag, lun, 0, 0, 0, 0],
        Reply::CreditSettled => [wrote, CREDIT_RESPONSE, 0, 0, 0, 0, 0, 0],
        Reply::LoggedOut => [wrote, LOGOUT, 0, 0, 0, 0, 0, 0],
        Reply::Operation(k, p, n) => operation_words(k, p, n),
        Reply::Done(n) => done_words(n),
        Reply::Served(tag, d, p, n) => served_words(tag, d, p, n),
        Reply::Idle => [0, 0, 0, 0, 0, 0, 0, 0],
        Reply::Accepted => [wrote, 0, 0, 0, 0, 0, 0, 0],
        Reply::Rejected(reason) => [wrote, reason as u64, 0, 0, 0, 0, 0, 0],
        Reply::Counts(c) => counter_words(c),
        Reply::Listed(n) => [n as u64, 0, 0, 0, 0, 0, 0, 0],
    }
}
