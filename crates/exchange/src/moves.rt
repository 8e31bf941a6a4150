// Data that a disk does not send in order: the middle before the start, and the last byte before the others.
use host::message::{Command, Message};
use host::paper::{IN_INDIRECT, READ};
use owner::Session;
use srp::Direction;
use std::io;

const TAG: u64 = 0x18;

const LAST_TAG: u64 = 0x19;

// Three moves: the middle, during which no other can be named; the start; the end, trimmed. The listing has the highest offset + 1 each time.
fn three_moves(rt: &impl Print, s: &mut Session) -> io::Result<()> {
    s.plan(rt, TAG, 0, 1300)?;
    s.name_move(rt, TAG, Direction::In, 600, 600)?;
    s.step(rt, TAG, Direction::In)?;
    s.name_move(rt, TAG, Direction::In, 0, 600)?;
    s.step(rt, TAG, Direction::In)?;
    s.show_list(rt)?;
    s.move_part(rt, TAG, Direction::In, 0, 600)?;
    s.show_list(rt)?;
    s.name_move(rt, TAG, Direction::In, 1301, 1)?;
    s.move_part(rt, TAG, Direction::In, 1200, 1000)?;
    s.show_list(rt)
}

// 1,300 bytes in, of which the disk has 600 from offset 600 on in its cache.
pub fn middle_first(rt: &impl Print, s: &mut Session) -> io::Result<()> {
    println!(rt;
        "data in, the middle first: bytes 600 to 1,199 of 1,300, then the start, then the end"
    )?;
    s.submit(rt, Message::read(TAG, 0x1000, 1300))?;
    s.take(rt)?;
    three_moves(rt, s)?;
    s.finish(rt, TAG)
}

// Five segments, of which the first, the third and the last have no byte; their descriptors all stand in the message.
fn five_segments() -> Message {
    Message::command(Command {
        formats: IN_INDIRECT,
        in_count: 5,
        tag: LAST_TAG,
        operation: READ,
        ..Command::default()
    })
    .with_table(0x9000, 3, 5, 700)
    .with_segment(0x2000, 1, 0)
    .with_segment(0x3000, 2, 600)
    .with_segment(0x4000, 3, 0)
    .with_segment(0x5000, 4, 100)
    .with_segment(0x6000, 5, 0)
}

// 700 bytes in, the last of them first: it stands in the fourth segment, behind 600 bytes of the earlier ones.
pub fn last_first(rt: &impl Print, s: &mut Session) -> io::Result<()> {
    println!(rt; "data in, five segments, three of them empty: byte 699 of 700, then the others")?;
    s.submit(rt, five_segments())?;
    s.take(rt)?;
    s.plan(rt, LAST_TAG, 0, 700)?;
    s.move_part(rt, LAST_TAG, Direction::In, 699, 1)?;
    s.move_part(rt, LAST_TAG, Direction::In, 0, 699)?;
    s.finish(rt, LAST_TAG)
}
