// The next piece of a move, from its direction's memory descriptors as bytes, and the cut with its refusals.
#![tactic(auto)]

mod locate;

ghost use Rattle.std.specs.Prelude.{◌≡◌, ◌+◌, ◌/◌, ◌^◌, ◌≤◌, false, not, length, nat_le};
ghost use Rattle.srp.specs.Limits.{longest_table};
ghost use Rattle.srp.specs.Descriptors.{segments_of};
ghost use Rattle.srp.specs.Cutting.{up_to, next, bad_boundary, cut_def};
ghost use Rattle.cut.specs.Walk.{total_of, Bounded, next_wrapped, ended};

use srp::limits::{LARGEST_PIECE, LONGEST_LIST};
use srp::{Piece, Refusal};
use wire::layout::{ADDRESS, HANDLE, SEGMENT, SEGMENT_LENGTH};

const LARGEST_TOTAL: u64 = 0xffff_ffff;

const LARGEST_ADDRESS: u64 = 0xffff_ffff_ffff_ffff;

// Whether a segment passes 2^64; one that ends there does not.
fn past(address: u64, len: u32) -> bool
    ensures { result ≡ not (nat_le (address + len) (2 ^ 64)) }
{
    len != 0 && LARGEST_ADDRESS - address < (len as u64) - 1
}

// The sum of the lengths of up to 32 segments, unless a segment passes 2^64. In 64 bits: 32 lengths can pass 2^32.
pub fn sum(list: &[u8]) -> Option<u64>
    requires { length list.now ≤ longest_table }
    ensures { (result ≡ total_of (segments_of list.now)) × Bounded (length list.now / 16) result }
{
    let mut so_far: u64 = 0;
    for i in 0..list.len() / SEGMENT {
        let at = i * SEGMENT;
        let address = wire::read64(list, at + ADDRESS);
        let len = wire::read32(list, at + SEGMENT_LENGTH);
        if past(address, len) {
            return None;
        }
        so_far += len as u64;
    }
    Some(so_far)
}

// The piece at `from` of the bytes up to `to`, at most `most` long, without boundaries. An address counts modulo 2^64.
pub fn next_piece(list: &[u8], most: u32, from: u32, to: u32) -> Option<Piece>
    ensures { result ≡ next_wrapped (next (up_to most 0) from to (segments_of list.now)) }
{
    if to <= from {
        return None;
    }
    let location = locate::find_segment(list, from)?;
    let at = location.index * SEGMENT;
    let skip = (from as u64) - location.earlier;
    let address = wire::read64(list, at + ADDRESS);
    let left = ((location.len as u64) - skip).min((to - from) as u64);
    Some(Piece {
        address: address.wrapping_add(skip),
        handle: wire::read32(list, at + HANDLE),
        len: (most as u64).min(left) as u32,
        offset: from,
    })
}

// A piece without boundaries, ended at the next multiple of Q above its first address where that is nearer.
pub fn end_at_boundary(piece: Option<Piece>, q: u64) -> Option<Piece>
    requires { bad_boundary q ≡ false }
    ensures { result ≡ ended q piece }
{
    let p = piece?;
    Some(Piece {
        len: boundary::longest_at(p.len, q, p.address),
        ..p
    })
}

// The next piece of the first min(R, B) bytes, `handed` of them handed out before; none where all were.
pub fn cut(
    list: &[u8],
    most: u32,
    q: u64,
    required: u32,
    handed: u32,
) -> Result<Option<Piece>, Refusal>
    ensures { result ≡ cut_def list.now most q required handed }
{
    if most == 0 {
        return Err(Refusal::Setting);
    }
    if LARGEST_PIECE < most {
        return Err(Refusal::Setting);
    }
    if boundary::is_bad(q) {
        return Err(Refusal::Setting);
    }
    if list.len() % SEGMENT != 0 {
        return Err(Refusal::Argument);
    }
    if LONGEST_LIST < list.len() {
        return Err(Refusal::Argument);
    }
    let total = sum(list).ok_or(Refusal::Fields)?;
    if LARGEST_TOTAL < total {
        return Err(Refusal::Fields);
    }
    let to = (required as u64).min(total) as u32;
    if to < handed {
        return Err(Refusal::Argument);
    }
    Ok(end_at_boundary(next_piece(list, most, handed, to), q))
}
