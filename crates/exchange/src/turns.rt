// Three moves by turns: a piece of each, one after the other, until none has any left.
use host::message::{Command, Message};
use host::paper::{OUT_DIRECT, READ};
use owner::Session;
use srp::Direction;
use std::io;

const LONG: u64 = 0x26;

const OUT: u64 = 0x27;

const SHORT: u64 = 0x28;

// 600 bytes out, one memory descriptor.
fn out() -> Message {
    Message::command(Command {
        formats: OUT_DIRECT,
        tag: OUT,
        operation: READ,
        ..Command::default()
    })
    .with_segment(0x2000, 7, 600)
}

// All three moves are named, and served in that order; a single step hands out the last piece of one, which then has no turn.
fn serve(rt: &impl Print, s: &mut Session) -> io::Result<()> {
    s.turn(rt)?;
    s.name_move(rt, LONG, Direction::In, 0, 1300)?;
    s.name_move(rt, OUT, Direction::Out, 0, 600)?;
    s.name_move(rt, SHORT, Direction::In, 0, 512)?;
    for _ in 0..4 {
        s.turn(rt)?;
    }
    s.step(rt, OUT, Direction::Out)?;
    s.turn(rt)?;
    s.turn(rt)
}

pub fn three_moves(rt: &impl Print, s: &mut Session) -> io::Result<()> {
    println!(rt;
        "three moves by turns: 1,300 bytes in, 600 out and 512 in; the last piece of the second goes by a single step"
    )?;
    s.submit(rt, Message::read(LONG, 0x1000, 1300))?;
    s.submit(rt, out())?;
    s.submit(rt, Message::read(SHORT, 0x3000, 512))?;
    s.take(rt)?;
    s.take(rt)?;
    s.take(rt)?;
    s.plan(rt, LONG, 0, 1300)?;
    s.plan(rt, OUT, 600, 0)?;
    s.plan(rt, SHORT, 0, 512)?;
    serve(rt, s)?;
    s.finish(rt, SHORT)?;
    s.finish(rt, OUT)?;
    s.finish(rt, LONG)
}
