// Commands that wait for their tables, while what comes behind them is taken and served.
use host::message::{Command, Message};
use host::paper::{ABORT_TASK, IN_INDIRECT, OUT_INDIRECT, READ, WRITE};
use owner::Session;
use std::io;

const FIRST: u64 = 0x20;

const SECOND: u64 = 0x21;

const THIRD: u64 = 0x22;

const BAD: u64 = 0x23;

const ABORTED: u64 = 0x24;

const TASK: u64 = 0x25;

// A command of 700 bytes, whose table of two descriptors is at an address of the initiator's memory.
fn by_table(formats: u8, tag: u64, operation: u8, address: u64) -> Message {
    Message::command(Command {
        formats,
        tag,
        operation,
        ..Command::default()
    })
    .with_table(address, 9, 2, 700)
}

// The table that is fetched for a command: 600 bytes at an address, and so many at 8000h.
fn table(address: u64, last: u32) -> Message {
    Message::new()
        .with_segment(address, 5, 600)
        .with_segment(0x8000, 6, last)
}

// While two wait: all three are held and listed, a plan of the first draws 33, and the third is served.
fn serve_third(rt: &impl Print, s: &mut Session) -> io::Result<()> {
    s.show_counts(rt)?;
    s.plan(rt, FIRST, 700, 0)?;
    s.show_list(rt)?;
    s.move_data(rt, THIRD, 0, 100)?;
    s.finish(rt, THIRD)
}

// Two that wait, data out and data in, and a third that is served meanwhile; the second's table comes before the first's.
pub fn side_by_side(rt: &impl Print, s: &mut Session) -> io::Result<()> {
    println!(rt;
        "two commands wait for their tables, a third is served meanwhile; the second's table comes before the first's"
    )?;
    s.submit(rt, by_table(OUT_INDIRECT, FIRST, WRITE, 0xa000))?;
    s.submit(rt, by_table(IN_INDIRECT, SECOND, READ, 0xb000))?;
    s.submit(rt, Message::read(THIRD, 0x1000, 100))?;
    let first = s.take_fetching(rt)?;
    let second = s.take_fetching(rt)?;
    s.take(rt)?;
    serve_third(rt, s)?;
    s.bring(rt, SECOND, second, table(0x6000, 100))?;
    s.move_data(rt, SECOND, 0, 700)?;
    s.finish(rt, SECOND)?;
    s.bring(rt, FIRST, first, table(0x7000, 100))?;
    s.move_data(rt, FIRST, 700, 0)?;
    s.finish(rt, FIRST)
}

// Two that end as they wait: one by its table, which draws 10, one by an abort, after which its table draws 24.
pub fn ended_early(rt: &impl Print, s: &mut Session) -> io::Result<()> {
    println!(rt;
        "two commands wait: one's table has 800 bytes where 700 are stated, and it is answered; the other is aborted before its table comes"
    )?;
    s.submit(rt, by_table(IN_INDIRECT, BAD, READ, 0xa000))?;
    s.submit(rt, by_table(IN_INDIRECT, ABORTED, READ, 0xb000))?;
    let bad = s.take_fetching(rt)?;
    let aborted = s.take_fetching(rt)?;
    s.bring(rt, BAD, bad, table(0x6000, 200))?;
    s.deliver(rt)?;
    s.submit(rt, Message::task(TASK, 0, ABORT_TASK, ABORTED))?;
    s.take(rt)?;
    s.deliver(rt)?;
    s.bring(rt, ABORTED, aborted, table(0x7000, 100))
}
