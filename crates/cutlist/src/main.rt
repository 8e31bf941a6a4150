// cutlist: reads one SRP_CMD from standard input and prints the RDMA operations that move its data, out before in.
// Both formats agreed, messages of up to 1,364 bytes, M = 512, R = B. What is printed is `cutlist` of crate srp's specs/Outside.antt.
#![tactic(auto)]

mod lines;
mod output;

ghost use Rattle.std.specs.Prelude.{◌≡◌, true, ◌≤◌};
ghost use Rattle.srp.specs.Descriptors.{segments_of, sum_of, reachable};
ghost use Rattle.cutlist.specs.Outputs.{Ready};

use output::{Buffer, Output};
use srp::limits::LONGEST_AGREED;
use srp::{Kind, Refusal};
use std::io;

// one byte more than the longest message, so that a longer one is seen
const INPUT: usize = (LONGEST_AGREED as usize) + 1;

// some 250 lines for each write
const TEXT: usize = 8192;

fn main(rt: HostRuntime) -> io::Result<()> {
    let mut buf = [0u8; INPUT];
    let n = input::read_full(&mut rt.stdin(), &mut buf)?;
    print(&rt, &buf[..n])
}

fn print(rt: &impl Print, msg: &[u8]) -> io::Result<()> {
    match output::output_of(msg) {
        Err(refusal) => print_refusal(rt, refusal),
        Ok(Output::Fetch) => rt.write_all(b"fetch\n"),
        Ok(Output::Operations(out, inn)) => {
            print_buffer(rt, msg, Kind::Read, out)?;
            print_buffer(rt, msg, Kind::Write, inn)
        }
    }
}

fn print_refusal(rt: &impl Print, refusal: Refusal) -> io::Result<()> {
    let mut line = [0u8; 16];
    let n = lines::put_refusal(&mut line, refusal);
    rt.write_all(&line[..n])
}

fn print_buffer(rt: &impl Print, msg: &[u8], kind: Kind, buffer: Buffer) -> io::Result<()>
    requires { Ready msg.now buffer }
{
    let Buffer { descriptor, total } = buffer;
    let list = command::segment_list(command::standing(msg, descriptor), &[], descriptor);
    print_operations(rt, list, kind, total)
}

// The operations of one direction, a full text at a time.
fn print_operations(rt: &impl Print, list: &[u8], kind: Kind, total: u32) -> io::Result<()>
    requires list_value { reachable (segments_of list.now) ≡ true }
    requires total_bound { total ≤ sum_of (segments_of list.now) }
{
    let mut lines = [0u8; TEXT];
    let mut from: u32 = 0;
    while from < total {
        let filled = output::fill(&mut lines, list, kind, from, total);
        let n = filled.len;
        rt.write_all(&lines[..n])?;
        from = filled.from;
    }
    Ok(())
}
