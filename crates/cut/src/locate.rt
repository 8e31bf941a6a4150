// The search for the segment that holds an offset, over memory descriptors as bytes.
ghost use Rattle.std.specs.Prelude.{◌≡◌, ◌/◌, IfSome, length};
ghost use Rattle.srp.specs.Descriptors.{segments_of};
ghost use Rattle.cut.specs.Locating.{located, Within};

use wire::layout::{SEGMENT, SEGMENT_LENGTH};

// A segment's index and length, and the sum of the earlier lengths.
#[derive(Clone, Copy)]
pub struct Location {
    pub index: usize,
    pub len: u32,
    pub earlier: u64,
}

// The segment that holds an offset, none where the offset is behind the last byte. In one pass: the sum of the earlier lengths is kept, and each
// length added once. The search moves on only while that sum is not above the offset, so that 64 bits hold it for a list of any length.
pub fn find_segment(list: &[u8], offset: u32) -> Option<Location>
    ensures segment { result ≡ located offset (segments_of list.now) }
    ensures bounds { IfSome result (Within (length list.now / 16) offset) }
{
    let mut earlier: u64 = 0;
    for index in 0..list.len() / SEGMENT {
        let len = wire::read32(list, index * SEGMENT + SEGMENT_LENGTH);
        let through = earlier + (len as u64);
        if (offset as u64) < through {
            return Some(Location {
                index,
                len,
                earlier,
            });
        }
        earlier = through;
    }
    None
}
