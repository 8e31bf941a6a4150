// points: document 01's P1 to P10, through the calls of the port. Each begins with what document 01 says of it; then what the port does.
#![tactic(auto)]

ghost use Rattle.std.specs.Prelude.{◌≡◌, ◌≤◌};

use host::message::{Command, Message};
use host::paper::{GOOD, IN_INDIRECT, READ};
use owner::Session;
use std::io;

// N of every point, and so the initiator's limit after the login.
const BUFFERS: u32 = 4;

fn main(rt: HostRuntime) -> io::Result<()> {
    let rt = &rt;
    let s = &mut Session::new();
    one(rt, s)?;
    cuts(rt, s)?;
    lengths(rt, s)?;
    tables(rt, s)?;
    withdrawn(rt, s)?;
    finished(rt, s)
}

// P1: document 01's list.
fn one(rt: &impl Print, s: &mut Session) -> io::Result<()> {
    println!(rt;
        "P1: in-direct, address 1000h, handle 7, length 1,300: W 1000h/512, W 1200h/512, W 1400h/276"
    )?;
    s.log_in(rt, BUFFERS)?;
    s.submit(rt, Message::read(0x10, 0x1000, 1300))?;
    s.take(rt)?;
    s.move_data(rt, 0x10, 0, 1300)
}

// P2 to P4: one buffer of 700 bytes, three required lengths.
fn cuts(rt: &impl Print, s: &mut Session) -> io::Result<()> {
    println!(rt;
        "P2: segments 2000h/0, 3000h/600, 5000h/100, M 512, R = B: 3000h/512, 3200h/88, 5000h/100"
    )?;
    three_segments(rt, s, 700)?;
    println!(rt; "P3: the same, R = 650, all steps: last piece 50, under 50")?;
    three_segments(rt, s, 650)?;
    println!(rt; "P4: R = 800: over 100")?;
    three_segments(rt, s, 800)
}

// 700 bytes in, by a table with so many descriptors in the message.
fn by_table(tag: u64, in_count: u8, entries: u8) -> Message
    ensures { result.len ≡ 68 }
{
    Message::command(Command {
        formats: IN_INDIRECT,
        in_count,
        tag,
        operation: READ,
        ..Command::default()
    })
    .with_table(0x9000, 3, entries, 700)
}

// All steps, and the response.
fn three_segments(rt: &impl Print, s: &mut Session, required: u32) -> io::Result<()> {
    let command = by_table(0x20, 3, 3)
        .with_segment(0x2000, 1, 0)
        .with_segment(0x3000, 1, 600)
        .with_segment(0x5000, 1, 100);
    s.log_in(rt, BUFFERS)?;
    s.submit(rt, command)?;
    s.take(rt)?;
    s.move_data(rt, 0x20, 0, required)?;
    s.end(rt, 0x20, GOOD, b"")?;
    s.receive(rt)
}

// A message by itself, to a new port: taken, or refused and answered by a logout.
fn alone(rt: &impl Print, s: &mut Session, message: Message) -> io::Result<()> {
    s.log_in(rt, BUFFERS)?;
    s.submit(rt, message)?;
    s.take(rt)?;
    s.deliver(rt)
}

// P5 and P6: a command without data, and with four more bytes of CDB.
fn lengths(rt: &impl Print, s: &mut Session) -> io::Result<()> {
    let command = Message::without_data(0x30, 0);
    println!(rt; "P5: no data: 48 bytes; 47 gives 3")?;
    alone(rt, s, command)?;
    alone(rt, s, command.first(47))?;
    println!(rt; "P6: byte 31 = 07h: n = 1, 52 bytes, so a CDB of 16 + 4n = 20")?;
    alone(rt, s, command.with_additional(0x07))
}

// The two descriptors of 700 bytes, behind a message, or by themselves in the initiator's memory.
fn with_two(message: Message) -> Message
    requires { message.len ≤ 224 }
{
    message
        .with_segment(0x3000, 1, 600)
        .with_segment(0x5000, 1, 100)
}

// P7: a table of two descriptors, fetched and in the message.
fn tables(rt: &impl Print, s: &mut Session) -> io::Result<()> {
    println!(rt; "P7: one indirect, c = 0: 68; c = 2: 100")?;
    fetching(rt, s, 0x31)?;
    alone(rt, s, with_two(by_table(0x32, 2, 2)))
}

// A command by itself, with the table in the initiator's memory, for which the command waits.
fn fetching(rt: &impl Print, s: &mut Session, tag: u64) -> io::Result<()> {
    s.log_in(rt, BUFFERS)?;
    s.submit(rt, by_table(tag, 0, 2))?;
    let kept = s.take_fetching(rt)?;
    s.bring(rt, tag, kept, with_two(Message::new()))?;
    s.show_counts(rt)
}

// A command without data is sent and taken.
fn command(rt: &impl Print, s: &mut Session, tag: u64) -> io::Result<()> {
    s.submit(rt, Message::without_data(tag, 0))?;
    s.take(rt)
}

// P8.
fn withdrawn(rt: &impl Print, s: &mut Session) -> io::Result<()> {
    println!(rt; "P8: N = 4, two taken, withdraw 3: D = -3")?;
    s.log_in(rt, BUFFERS)?;
    command(rt, s, 1)?;
    command(rt, s, 2)?;
    s.withdraw(rt, 3)?;
    s.show_counts(rt)
}

// P9 and P10, after P8.
fn finished(rt: &impl Print, s: &mut Session) -> io::Result<()> {
    println!(rt; "P9: then both finished: deltas 0, 0, D = -1")?;
    s.finish(rt, 1)?;
    s.finish(rt, 2)?;
    println!(rt; "P10: then take, finish, take, finish: deltas 0, 1")?;
    command(rt, s, 3)?;
    s.finish(rt, 3)?;
    command(rt, s, 4)?;
    s.finish(rt, 4)
}
