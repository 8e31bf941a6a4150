// What happens, a line each: messages, RDMA operations, counts.
use crate::paper::{
    COMMAND, FLAGS, IN_RESIDUAL, NOTIFICATION, OUT_RESIDUAL, RSP, RSP_SIZE, SENSE_LENGTH, SOLNT,
    STATUS,
};
use page::{LINE, Way};
use srp::{Counters, Fetch, Kind, Piece, Record, Refusal, Reply};
use std::io;

// Of an SRP_RSP its status, flags, SOLNT, residuals and sense length.
fn response(rt: &impl Print, msg: &[u8]) -> io::Result<()> {
    if msg.len() < RSP_SIZE {
        return Ok(());
    }
    let status = wire::read8(msg, STATUS);
    let flags = wire::read8(msg, FLAGS);
    let solnt = wire::read_bits(msg, NOTIFICATION, SOLNT, 1);
    let out = wire::read32(msg, OUT_RESIDUAL);
    let inn = wire::read32(msg, IN_RESIDUAL);
    let sense = wire::read32(msg, SENSE_LENGTH);
    println!(rt;
        "   status {status:02x}, flags {flags:02x}, solnt {solnt}, residuals {out} and {inn}, sense {sense}"
    )
}

// What the trace line does not say of a command and of a response.
fn details(rt: &impl Print, msg: &[u8]) -> io::Result<()> {
    match msg {
        [COMMAND, ..] => println!(rt; "   {} bytes", msg.len()),
        [RSP, ..] => response(rt, msg),
        _ => Ok(()),
    }
}

// A message on its way: its trace line, and the details below it.
pub fn message(rt: &impl Print, way: Way, msg: &[u8]) -> io::Result<()> {
    let mut line = [0u8; LINE];
    let _ = page::trace(msg, way, &mut line);
    rt.write_all(&line)?;
    details(rt, msg)
}

// An operation, and how many its move has with it.
pub fn operation(rt: &impl Print, kind: Kind, p: Piece, n: u32) -> io::Result<()> {
    let name = match kind {
        Kind::Read => "Read ",
        Kind::Write => "Write",
    };
    println!(rt;
        "   RDMA {name} handle {:08x} address {:016x} length {} offset {} number {n}",
        p.handle, p.address, p.len, p.offset
    )
}

// The fetch of a table.
pub fn fetch(rt: &impl Print, f: Fetch) -> io::Result<()> {
    println!(rt;
        "   RDMA Read  handle {:08x} address {:016x} length {} (the table of descriptors)",
        f.handle, f.address, f.len
    )
}

pub fn counts(rt: &impl Print, c: Counters, limit: u64) -> io::Result<()> {
    println!(rt;
        "W {}, A {}, H {}, D {}; the initiator's limit {limit}",
        c.wanted, c.announced, c.held, c.owed
    )
}

// A command in the listing: the highest offset handed out + 1 each way.
pub fn record(rt: &impl Print, r: &Record) -> io::Result<()> {
    println!(rt;
        "   open: tag {:04x}, LUN {:016x}, out up to {}, in up to {}",
        r.tag, r.lun, r.out, r.inn
    )
}

fn refused(rt: &impl Print, lead: &str, f: Refusal) -> io::Result<()> {
    println!(rt; "{lead}refused {}", answer::number_of(f))
}

// A refusal, and nothing of a reply.
pub fn refusal(rt: &impl Print, lead: &str, r: Result<Reply, Refusal>) -> io::Result<()> {
    match r {
        Ok(_) => Ok(()),
        Err(f) => refused(rt, lead, f),
    }
}

// What taking a message comes to; of a command whether it waits for its tables.
pub fn taken(rt: &impl Print, r: Result<Reply, Refusal>) -> io::Result<()> {
    match r {
        Ok(
            Reply::NewCommand {
                tag,
                cdb,
                waits,
                ..
            },
        ) => {
            let waiting = if waits { ", waits for its tables" } else { "" };
            println!(rt; "   taken: tag {tag:04x}, CDB {cdb} bytes{waiting}")
        }
        Ok(Reply::Accepted) => println!(rt; "   accepted"),
        Ok(Reply::Rejected(_)) => println!(rt; "   rejected"),
        Ok(_) => println!(rt; "   taken"),
        Err(f) => refused(rt, "   ", f),
    }
}

// A step; whether there may be more. The end of a move without operations is passed over.
pub fn stepped(rt: &impl Print, r: Result<Reply, Refusal>) -> io::Result<bool> {
    match r {
        Ok(Reply::Operation(kind, p, n)) => {
            operation(rt, kind, p, n)?;
            return Ok(true);
        }
        Ok(Reply::Done(0)) => {}
        Ok(Reply::Done(n)) => println!(rt; "   done, number {n}")?,
        _ => refusal(rt, "   ", r)?,
    }
    Ok(false)
}

// What a turn hands out, with its command's tag, or that no move has pieces.
pub fn turned(rt: &impl Print, r: Result<Reply, Refusal>) -> io::Result<()> {
    match r {
        Ok(Reply::Served(tag, d, p, n)) => {
            println!(rt; "   turn: tag {tag:04x}")?;
            operation(rt, Kind::from(d), p, n)
        }
        Ok(Reply::Idle) => println!(rt; "   turn: idle"),
        _ => refusal(rt, "   ", r),
    }
}
