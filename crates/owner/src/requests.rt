// A request's way: taken, moved, ended.
use crate::{AGREED, FORMATS, Session, WRITTEN, first};
use host::message::Message;
use host::paper::GOOD;
use host::show;
use srp::{Direction, Look, Reply};
use std::io;

// more pieces than any command here has
const PIECES: usize = 64;

// The fetches of a command that waits begin; one of no bytes is none.
fn begin(rt: &impl Print, look: Look) -> io::Result<()> {
    for f in [look.out, look.inn] {
        if f.len != 0 {
            show::fetch(rt, f)?;
        }
    }
    Ok(())
}

impl Session {
    // A message is taken; whether it is a command that waits for its tables.
    fn take_one(&mut self, rt: &impl Print, message: Message) -> io::Result<bool> {
        let mut buf = [0u8; WRITTEN];
        let a = take::take(&mut self.port, &mut self.store, message.bytes(), &mut buf);
        show::taken(rt, a.reply)?;
        self.send(rt, &buf, a.wrote)?;
        Ok(matches!(a.reply, Ok(Reply::NewCommand { waits: true, .. })))
    }

    // The oldest message is taken, and leaves; where it waits its fetches begin. What it names to fetch is answered, for the owner to keep.
    pub fn take_fetching(&mut self, rt: &impl Print) -> io::Result<Option<Look>> {
        let Some(message) = self.channel.to_port.front().copied() else {
            return Ok(None);
        };
        let look = command::look(message.bytes(), AGREED, FORMATS).ok();
        let waits = self.take_one(rt, message)?;
        if waits && let Some(named) = look {
            begin(rt, named)?;
        }
        self.channel.to_port.pop();
        Ok(look)
    }

    // The same of a message that names no fetch.
    pub fn take(&mut self, rt: &impl Print) -> io::Result<()> {
        self.take_fetching(rt)?;
        Ok(())
    }

    // The fetches kept of a command are complete, and its tables are brought: each is the first bytes that the initiator's memory holds.
    pub fn bring(
        &mut self,
        rt: &impl Print,
        tag: u64,
        kept: Option<Look>,
        memory: Message,
    ) -> io::Result<()> {
        let Some(Look { out, inn }) = kept else {
            return Ok(());
        };
        println!(rt; "   tables: tag {tag:04x}, out {}, in {}", out.len, inn.len)?;
        let mut buf = [0u8; WRITTEN];
        let a = tables::bring(
            &mut self.port,
            &mut self.store,
            tag,
            first(memory.bytes(), out.len as usize),
            first(memory.bytes(), inn.len as usize),
            &mut buf,
        );
        self.conclude(rt, &buf, a)
    }

    // What the command requires each way.
    pub fn plan(&mut self, rt: &impl Print, tag: u64, out: u32, inn: u32) -> io::Result<()> {
        println!(rt; "   plan: tag {tag:04x}, out {out}, in {inn}")?;
        show::refusal(rt, "   ", transfer::plan(&mut self.port, tag, out, inn))
    }

    // A move of a direction: so many bytes from an offset on.
    pub fn name_move(
        &mut self,
        rt: &impl Print,
        tag: u64,
        d: Direction,
        offset: u32,
        count: u32,
    ) -> io::Result<()> {
        let way = match d {
            Direction::Out => "out",
            Direction::In => "in",
        };
        println!(rt; "   move: tag {tag:04x}, {way}, offset {offset}, count {count}")?;
        let reply = transfer::name_move(&mut self.port, tag, d, offset, count);
        show::refusal(rt, "   ", reply)
    }

    // One piece of the current move, or that there is no more; whether there may be more.
    pub fn step(&mut self, rt: &impl Print, tag: u64, d: Direction) -> io::Result<bool> {
        show::stepped(rt, transfer::step(&mut self.port, &self.store, tag, d))
    }

    // One piece of the first move in line, or that none has pieces.
    pub fn turn(&mut self, rt: &impl Print) -> io::Result<()> {
        show::turned(rt, transfer::turn(&mut self.port, &self.store))
    }

    // A move, and all its operations.
    pub fn move_part(
        &mut self,
        rt: &impl Print,
        tag: u64,
        d: Direction,
        offset: u32,
        count: u32,
    ) -> io::Result<()> {
        self.name_move(rt, tag, d, offset, count)?;
        for _ in 0..PIECES {
            if !self.step(rt, tag, d)? {
                break;
            }
        }
        Ok(())
    }

    // What the command requires each way, and one move of all of it each way.
    pub fn move_data(&mut self, rt: &impl Print, tag: u64, out: u32, inn: u32) -> io::Result<()> {
        self.plan(rt, tag, out, inn)?;
        self.move_part(rt, tag, Direction::Out, 0, out)?;
        self.move_part(rt, tag, Direction::In, 0, inn)
    }

    // Finish, with a status and sense.
    pub fn end(&mut self, rt: &impl Print, tag: u64, status: u8, sense: &[u8]) -> io::Result<()> {
        println!(rt; "   finish: tag {tag:04x}, status {status:02x}")?;
        let mut buf = [0u8; WRITTEN];
        let a = finish::finish(&mut self.port, tag, status, sense, &mut buf);
        self.conclude(rt, &buf, a)
    }

    // A command ends well, and its response is delivered.
    pub fn finish(&mut self, rt: &impl Print, tag: u64) -> io::Result<()> {
        self.end(rt, tag, GOOD, b"")?;
        self.deliver(rt)
    }
}
