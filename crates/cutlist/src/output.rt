// What a message comes to: a refusal, a table to fetch, or the operations of both directions; and their lines, as many as a text holds.
ghost use Rattle.std.specs.Prelude.{◌≡◌, true, ◌≤◌, ◌<◌, length};
ghost use Rattle.srp.specs.Descriptors.{segments_of, sum_of, reachable};
ghost use Rattle.command.specs.Reading.{FitsIn};
ghost use Rattle.cutlist.specs.Lines.{longest_line, Fills};
ghost use Rattle.cutlist.specs.Outputs.{operations_of, output_of_lem, Printable};

use crate::lines;
use srp::limits::{BOTH_FORMATS, LONGEST_AGREED};
use srp::{Command, Descriptor, Kind, Refusal};

const MAXIMUM: u32 = 512;

const LONGEST_LINE: usize = 32;

// A data buffer: its descriptor, and B.
#[derive(Clone, Copy)]
pub struct Buffer {
    pub descriptor: Descriptor,
    pub total: u32,
}

// What a command that is not refused comes to: a table to fetch, or operations, data-out's buffer and data-in's.
#[derive(Clone, Copy)]
pub enum Output {
    Fetch,
    Operations(Buffer, Buffer),
}

// How many bytes of a text hold lines, and where the next operation starts.
#[derive(Clone, Copy)]
pub struct Filled {
    pub len: usize,
    pub from: u32,
}

fn operations(msg: &[u8], c: Command) -> Result<Output, Refusal>
    requires { FitsIn msg.now c }
    ensures { (result ≡ operations_of c msg.now) × Printable msg.now result }
{
    let Command { out, inn, .. } = c;
    if command::waits(c) {
        return Ok(Output::Fetch);
    }
    let Some(out_total) = command::fields(command::standing(msg, out), &[], out) else {
        return Err(Refusal::Fields);
    };
    let Some(in_total) = command::fields(command::standing(msg, inn), &[], inn) else {
        return Err(Refusal::Fields);
    };
    Ok(Output::Operations(
        Buffer {
            descriptor: out,
            total: out_total as u32,
        },
        Buffer {
            descriptor: inn,
            total: in_total as u32,
        },
    ))
}

pub fn output_of(msg: &[u8]) -> Result<Output, Refusal>
    ensures { (result ≡ output_of_lem msg.now) × Printable msg.now result }
{
    operations(
        msg,
        command::look_command(msg, LONGEST_AGREED, BOTH_FORMATS)?,
    )
}

// Lines of the operations from byte `from` on, up to byte `to`.
pub fn fill(text: &mut [u8], list: &[u8], kind: Kind, from: u32, to: u32) -> Filled
    requires list_value { reachable (segments_of list.now) ≡ true }
    requires to_bound { to ≤ sum_of (segments_of list.now) }
    requires from_lt_to { from < to }
    requires longest_line_in_bounds { longest_line ≤ length text.old }
    ensures { Fills kind from to (segments_of list.now) text.new result }
{
    let mut end: usize = 0;
    let mut next = from;
    while next < to {
        if text.len() - end < LONGEST_LINE {
            return Filled {
                len: end,
                from: next,
            };
        }
        let Some(p) = cut::next_piece(list, MAXIMUM, next, to) else {
            return Filled { len: end, from: to };
        };
        end = lines::put_operation(&mut *text, end, kind, p);
        next += p.len;
    }
    Filled {
        len: end,
        from: next,
    }
}
