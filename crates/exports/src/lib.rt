// The calls for callers in C, as include/srp_target.h declares them; those on a port are in port.rt. Look, the cut and trace return 0 or the refusal's
// number, and write their answer's 32 bytes, or the line's 81, into the lent buffer. A refusal leaves the buffer as it was; every byte past those is kept.
// How format bytes divide is answered in eight words, as by the calls on a port.
#![tactic(auto)]

pub mod port;
pub mod taking;

ghost use Rattle.std.specs.Prelude.{◌≡◌, [], ◌∷◌, ◌++◌, ◌+◌, ◌≤◌, length};
ghost use Rattle.srp.specs.Limits.{answer_size};
ghost use Rattle.srp.specs.Bytes.{bytes_of, zeros};
ghost use Rattle.srp.specs.Writing.{placed};
ghost use Rattle.srp.specs.Outside.{descriptor_bytes, fetch_bytes, look_in_c, cut_in_c};
ghost use Rattle.page.specs.Page.{trace_in_c};
ghost use Rattle.exports.specs.Answered.{Answered, with_descriptor};
ghost use Rattle.exports.specs.Calls.{FormatCountsInC};
ghost use Rattle.exports.specs.Arguments.{way_in};

use page::Way;
use srp::{Look, Piece, Refusal};
use wire::layout::{ADDRESS, HANDLE, SEGMENT_LENGTH};

const ANSWER: usize = 32;

const SECOND: usize = 16;

// A memory descriptor.
fn put_descriptor(buf: &mut [u8], at: usize, address: u64, handle: u32, len: u32)
    requires { at + 16 ≤ length buf.old }
    ensures { buf.new ≡ with_descriptor at address handle len buf.old }
{
    wire::write32(&mut *buf, at + SEGMENT_LENGTH, len);
    wire::write32(&mut *buf, at + HANDLE, handle);
    wire::write64(buf, at + ADDRESS, address);
}

// Look's two fetches; one of length 0 is all 0.
fn put_look(buf: &mut [u8], look: Look)
    requires { answer_size ≤ length buf.old }
    ensures { buf.new ≡ placed ((fetch_bytes look.out ++ fetch_bytes look.inn) ∷ []) buf.old }
{
    let Look { out, inn } = look;
    wire::clear(&mut *buf, ANSWER);
    put_descriptor(&mut *buf, SECOND, inn.address, inn.handle, inn.len);
    put_descriptor(buf, 0, out.address, out.handle, out.len);
}

// The cut's piece, and then its offset.
fn put_piece(buf: &mut [u8], p: Piece)
    requires { answer_size ≤ length buf.old }
    ensures { buf.new ≡ placed ((descriptor_bytes p.address p.handle p.len ++ (bytes_of 4 p.offset ++ zeros 12)) ∷ []) buf.old }
{
    wire::clear(&mut *buf, ANSWER);
    wire::write32(&mut *buf, SECOND, p.offset);
    put_descriptor(buf, 0, p.address, p.handle, p.len);
}

pub fn srp_look(msg: &[u8], agreed: u32, formats: u32, buf: &mut [u8]) -> u32
    ensures { Answered result buf.old buf.new (look_in_c agreed formats msg.now (length buf.old)) }
{
    if buf.len() < ANSWER {
        return answer::number_of(Refusal::ShortBuffer);
    }
    match command::look(msg, agreed, formats) {
        Ok(look) => {
            put_look(buf, look);
            0
        }
        Err(refusal) => answer::number_of(refusal),
    }
}

pub fn srp_cut(list: &[u8], m: u32, q: u64, r: u32, handed: u32, buf: &mut [u8]) -> u32
    ensures { Answered result buf.old buf.new (cut_in_c list.now m q r handed (length buf.old)) }
{
    if buf.len() < ANSWER {
        return answer::number_of(Refusal::ShortBuffer);
    }
    match cut::cut(list, m, q, r, handed) {
        Ok(Some(p)) => {
            put_piece(buf, p);
            0
        }
        Ok(None) => {
            wire::clear(buf, ANSWER);
            0
        }
        Err(refusal) => answer::number_of(refusal),
    }
}

fn way_of(n: u32) -> Way
    ensures { result ≡ way_in n }
{
    if n == 0 { Way::Towards } else { Way::From }
}

pub fn srp_trace(msg: &[u8], direction: u32, buf: &mut [u8]) -> u32
    ensures { Answered result buf.old buf.new (trace_in_c (way_in direction) msg.now (length buf.old)) }
{
    answer::returned(page::trace(msg, way_of(direction), buf))
}

pub fn srp_format_counts(formats: u32, answer: &mut [u64; 8]) -> u32
    ensures { FormatCountsInC formats result answer.new }
{
    match division::divide(formats) {
        Ok(d) => {
            *answer = [d.pass as u64, d.out as u64, d.inn as u64, 0, 0, 0, 0, 0];
            0
        }
        Err(refusal) => port::give_nothing(answer, Err(refusal)),
    }
}
