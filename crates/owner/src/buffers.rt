// Buffers that come and go; the counters and the listing.
use crate::{Session, WRITTEN};
use host::show;
use srp::{Record, Reply};
use std::io;
use words::SLOTS;

// every number in the owner's list of records before a listing; no command of the programs has such a record
const MARK: u32 = 0xffffffff;

const MARKED: Record = Record {
    tag: MARK as u64,
    lun: MARK as u64,
    out: MARK,
    inn: MARK,
};

// The open commands of a listing, and how much of the list behind them it left as it was.
fn show_listed(rt: &impl Print, records: &[Record; SLOTS], n: usize) -> io::Result<()> {
    for record in records.iter().take(n) {
        show::record(rt, record)?;
    }
    let rest = records.iter().skip(n);
    let untouched = rest.take_while(|record| **record == MARKED).count();
    println!(rt; "   the rest of the list: {untouched} records untouched")
}

impl Session {
    pub fn add(&mut self, rt: &impl Print, k: u32) -> io::Result<()> {
        println!(rt; "   add {k}")?;
        show::refusal(rt, "   ", credit::add(&mut self.port, k))
    }

    pub fn withdraw(&mut self, rt: &impl Print, k: u32) -> io::Result<()> {
        println!(rt; "   withdraw {k}")?;
        show::refusal(rt, "   ", credit::withdraw(&mut self.port, k))
    }

    pub fn grant(&mut self, rt: &impl Print) -> io::Result<()> {
        let mut buf = [0u8; WRITTEN];
        println!(rt; "   grant")?;
        let a = credit::grant(&mut self.port, &mut buf);
        self.conclude(rt, &buf, a)
    }

    // W, A, H and D, and the initiator's limit.
    pub fn show_counts(&self, rt: &impl Print) -> io::Result<()> {
        print!(rt; "   counters: ")?;
        match report::counters(&self.port) {
            Ok(Reply::Counts(c)) => show::counts(rt, c, self.channel.limit),
            r => show::refusal(rt, "", r),
        }
    }

    // The initiator receives the oldest message to it.
    pub fn receive(&mut self, rt: &impl Print) -> io::Result<()> {
        self.channel.receive(rt)
    }

    // The same, and the counters and the limit after that.
    pub fn deliver(&mut self, rt: &impl Print) -> io::Result<()> {
        self.receive(rt)?;
        self.show_counts(rt)
    }

    // The open commands, listed into a list of the owner's.
    pub fn show_list(&self, rt: &impl Print) -> io::Result<()> {
        let list = report::lend(&self.port, [MARKED; SLOTS]);
        match list.reply {
            Ok(Reply::Listed(n)) => show_listed(rt, &list.records, n),
            r => show::refusal(rt, "   ", r),
        }
    }
}
