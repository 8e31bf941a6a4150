// exchange: an initiator and the port, through two queues. A login; commands with data both ways, direct and indirect; a disk's middle sent before its
// start, a last byte before the others; the listing; an abort; the listing oldest first, with a tag used again; commands that wait for their tables, of
// which one's are bad and one is aborted; three moves by turns; buffers added, granted and withdrawn; a logout; a second login with address boundaries,
// which the owner ends. Each message, each call and each RDMA operation is a line.
#![tactic(auto)]

mod boundaries;
mod moves;
mod order;
mod turns;
mod waiting;

use host::message::{Command, Message};
use host::paper::{
    ABORT_TASK, BOTH_SOLNT, CHECK_CONDITION, CREDIT_TAG, IN_INDIRECT, INACTIVE, OUT_DIRECT,
    OUT_INDIRECT, WRITE, WRITE_READ,
};
use owner::Session;
use srp::Direction;
use std::io;

const BUFFERS: u32 = 4;

// The error code, sense key and additional sense code of an invalid field in a CDB.
const SENSE: [u8; 18] = *b"\x70\0\x05\0\0\0\0\x0a\0\0\0\0\x24\0\0\0\0\0";

fn main(rt: HostRuntime) -> io::Result<()> {
    let rt = &rt;
    let s = &mut Session::new();
    println!(rt; "login: 4 buffers, pieces of up to 512 bytes, both formats")?;
    log_in(rt, s, 0)?;
    data_in(rt, s)?;
    data_out(rt, s)?;
    both_ways(rt, s)?;
    moves::middle_first(rt, s)?;
    moves::last_first(rt, s)?;
    two_open(rt, s)?;
    abort(rt, s)?;
    order::oldest_first(rt, s)?;
    waiting::side_by_side(rt, s)?;
    waiting::ended_early(rt, s)?;
    turns::three_moves(rt, s)?;
    change_buffers(rt, s)?;
    log_out(rt, s)?;
    boundaries::data_in(rt, s)?;
    close(rt, s)
}

// The login makes the port, and gives the initiator its limit.
fn log_in(rt: &impl Print, s: &mut Session, boundary: u64) -> io::Result<()> {
    s.submit_login(rt)?;
    s.take_login(rt, BUFFERS, boundary)?;
    s.deliver(rt)
}

// A command that reads 1,300 bytes from an address on, from its sending to its end.
fn read(rt: &impl Print, s: &mut Session, tag: u64, address: u64) -> io::Result<()> {
    s.submit(rt, Message::read(tag, address, 1300))?;
    s.take(rt)?;
    s.move_data(rt, tag, 0, 1300)?;
    s.finish(rt, tag)
}

// 1,300 bytes in, one memory descriptor.
fn data_in(rt: &impl Print, s: &mut Session) -> io::Result<()> {
    println!(rt; "data in, direct: 1,300 bytes required of 1,300")?;
    read(rt, s, 0x10, 0x1000)
}

// 700 bytes out in three segments, whose descriptors all stand in the message.
fn three_segments() -> Message {
    Message::command(Command {
        formats: OUT_INDIRECT,
        out_count: 3,
        tag: 0x11,
        operation: WRITE,
        ..Command::default()
    })
    .with_table(0x9000, 3, 3, 700)
    .with_segment(0x2000, 1, 0)
    .with_segment(0x3000, 1, 600)
    .with_segment(0x5000, 2, 100)
}

// Of the 700 bytes out 650 are required.
fn data_out(rt: &impl Print, s: &mut Session) -> io::Result<()> {
    println!(rt; "data out, indirect, the table in the message: 650 bytes required of 700")?;
    s.submit(rt, three_segments())?;
    s.take(rt)?;
    s.move_data(rt, 0x11, 650, 0)?;
    s.finish(rt, 0x11)
}

// 100 bytes out and 800 in, the latter by a table that is fetched: two descriptors in the initiator's memory.
fn two_directions() -> Message {
    Message::command(Command {
        notification: BOTH_SOLNT,
        formats: OUT_DIRECT | IN_INDIRECT,
        tag: 0x12,
        operation: WRITE_READ,
        ..Command::default()
    })
    .with_segment(0x4000, 4, 100)
    .with_table(0xa000, 9, 2, 800)
}

// Of the 800 bytes in 900 are required, and the command fails.
fn both_ways(rt: &impl Print, s: &mut Session) -> io::Result<()> {
    println!(rt;
        "data both ways, out direct, in by a table that is fetched: 900 bytes required of 800; check condition"
    )?;
    let table = Message::new()
        .with_segment(0x6000, 5, 300)
        .with_segment(0x8000, 6, 500);
    s.submit(rt, two_directions())?;
    let kept = s.take_fetching(rt)?;
    s.bring(rt, 0x12, kept, table)?;
    s.move_data(rt, 0x12, 100, 900)?;
    s.end(rt, 0x12, CHECK_CONDITION, &SENSE)?;
    s.deliver(rt)
}

// 100 bytes out, to LUN 1.
fn write() -> Message {
    Message::command(Command {
        formats: OUT_DIRECT,
        tag: 0x14,
        lun: 1,
        operation: WRITE,
        ..Command::default()
    })
    .with_segment(0x4000, 4, 100)
}

// The listing, with two of the three pieces of one command's move handed out, and the other not planned; then both end so. They are of two LUNs, and
// both are sent before either is taken.
fn two_open(rt: &impl Print, s: &mut Session) -> io::Result<()> {
    println!(rt; "two commands open, one partly moved, one not planned: the listing; both end so")?;
    s.submit(rt, Message::read(0x13, 0x1000, 1300))?;
    s.submit(rt, write())?;
    s.take(rt)?;
    s.take(rt)?;
    s.plan(rt, 0x13, 0, 1300)?;
    s.name_move(rt, 0x13, Direction::In, 0, 1300)?;
    s.step(rt, 0x13, Direction::In)?;
    s.step(rt, 0x13, Direction::In)?;
    s.show_list(rt)?;
    s.finish(rt, 0x13)?;
    s.finish(rt, 0x14)
}

// A command that is aborted before it ends; the task request is sent before the command is taken.
fn abort(rt: &impl Print, s: &mut Session) -> io::Result<()> {
    println!(rt; "an abort: the command gets no response, the task request an answer")?;
    s.submit(rt, Message::without_data(0x15, 1))?;
    s.submit(rt, Message::task(0x16, 1, ABORT_TASK, 0x15))?;
    s.take(rt)?;
    s.show_counts(rt)?;
    s.take(rt)?;
    s.deliver(rt)
}

// Two buffers more, granted by a credit request that the initiator answers; then one is withdrawn.
fn change_buffers(rt: &impl Print, s: &mut Session) -> io::Result<()> {
    println!(rt; "two buffers added and granted, one withdrawn")?;
    s.add(rt, 2)?;
    s.show_counts(rt)?;
    s.grant(rt)?;
    s.receive(rt)?;
    s.submit(rt, Message::credit_response(CREDIT_TAG))?;
    s.take(rt)?;
    s.show_counts(rt)?;
    s.withdraw(rt, 1)?;
    s.show_counts(rt)
}

// The initiator leaves while a command is open.
fn log_out(rt: &impl Print, s: &mut Session) -> io::Result<()> {
    println!(rt; "a logout with a command open; a closed channel refuses 21")?;
    s.submit(rt, Message::without_data(0x17, 1))?;
    s.take(rt)?;
    s.show_counts(rt)?;
    s.submit(rt, Message::logout(2))?;
    s.take(rt)?;
    s.show_counts(rt)
}

// The owner closes with reason 1, an inactive channel.
fn close(rt: &impl Print, s: &mut Session) -> io::Result<()> {
    println!(rt; "the owner ends the channel: reason 1, it is inactive")?;
    s.close(rt, INACTIVE)?;
    s.deliver(rt)
}
