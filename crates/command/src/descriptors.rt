// A data buffer descriptor in a message: its format where agreed, its size, the table to fetch for it.
ghost use Rattle.std.specs.Prelude.{◌≡◌, ◌+◌, ◌≤◌, cond, length, Some, None, IfSome};
ghost use Rattle.srp.specs.Descriptors.{descriptor_size, agrees, descriptor_of_lem, good_table_lem, fetched, fetch_of};
ghost use Rattle.command.specs.Reading.{with_total_lem, counted, LiesIn};

use srp::limits::{LONGEST_TABLE, MOST_COPIES};
use srp::{Descriptor, Fetch};
use wire::layout::{
    ADDRESS, DIRECT, HANDLE, INDIRECT, SEGMENT, SEGMENT_LENGTH, TABLE_DESCRIPTOR, TOTAL_LENGTH,
};

// A format that is among the agreed ones: no data always is.
pub fn agreed_format(formats: u32, format: u8) -> Option<u8>
    ensures value { result ≡ cond (agrees formats format) (Some format) None }
    ensures known { IfSome result (λ f. f ≤ 2) }
{
    match format {
        0 => Some(format),
        DIRECT..=INDIRECT if (formats >> (format as u32)) & 1 == 1 => Some(format),
        _ => None,
    }
}

// How many bytes a descriptor takes: with 255 copies it is longest.
pub fn size(format: u8, count: u8) -> usize
    ensures { (result ≡ descriptor_size format count) × (result ≤ descriptor_size 2 255) }
{
    match format {
        DIRECT => SEGMENT,
        INDIRECT => TABLE_DESCRIPTOR + SEGMENT * (count as usize),
        _ => 0,
    }
}

// A descriptor but for its total length.
pub fn descriptor(msg: &[u8], format: u8, count: u8, at: usize) -> Descriptor
    requires { at + descriptor_size format count ≤ length msg.now }
    ensures { result ≡ with_total_lem 0 (descriptor_of_lem format count at msg.now) }
{
    let bare = Descriptor {
        format,
        count: 0,
        at,
        len: 0,
        total: 0,
    };
    let INDIRECT = format else {
        return bare;
    };
    let len = wire::read32(msg, at + SEGMENT_LENGTH);
    Descriptor { count, len, ..bare }
}

// The same, unless its count is bad: more than 32 copies, or more than the table has.
pub fn counted_descriptor(msg: &[u8], format: u8, count: u8, at: usize) -> Option<Descriptor>
    requires { at + descriptor_size format count ≤ length msg.now }
    ensures value { result ≡ counted (with_total_lem 0 (descriptor_of_lem format count at msg.now)) }
    ensures fits { format ≤ 2 → IfSome result (LiesIn msg.now) }
{
    let d = descriptor(msg, format, count, at);
    let INDIRECT = format else {
        return Some(d);
    };
    let ..=MOST_COPIES = count else {
        return None;
    };
    (SEGMENT * (count as usize) <= (d.len as usize)).then_some(d)
}

// The total length that stands in the message at a descriptor's place.
pub fn total_length(msg: &[u8], d: Descriptor) -> u32
    requires { LiesIn msg.now d }
    ensures { result ≡ (descriptor_of_lem d.format d.count d.at msg.now).total }
{
    if d.format == INDIRECT {
        return wire::read32(msg, d.at + TOTAL_LENGTH);
    }
    0
}

// A multiple of 16 from 16 to 512.
pub fn good_table(len: u32) -> bool
    ensures { result ≡ good_table_lem len }
{
    SEGMENT <= (len as usize) && len <= LONGEST_TABLE && (len as usize) % SEGMENT == 0
}

// F, the length of the table to fetch.
pub fn fetched_length(d: Descriptor) -> u32
    ensures { result ≡ fetched d }
{
    if d.format != INDIRECT || !good_table(d.len) {
        return 0;
    }
    if (d.len as usize) == SEGMENT * (d.count as usize) {
        return 0;
    }
    d.len
}

// The table to fetch for a descriptor.
pub fn fetch(msg: &[u8], d: Descriptor) -> Fetch
    requires { LiesIn msg.now d }
    ensures { result ≡ fetch_of d msg.now }
{
    let len = fetched_length(d);
    if len == 0 {
        return Fetch {
            address: 0,
            handle: 0,
            len: 0,
        };
    }
    Fetch {
        address: wire::read64(msg, d.at + ADDRESS),
        handle: wire::read32(msg, d.at + HANDLE),
        len,
    }
}
