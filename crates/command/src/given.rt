// What a message gives of a direction: its descriptor, the memory descriptors that stand in the message, its segments.
ghost use Rattle.std.specs.Prelude.{◌≡◌, length};
ghost use Rattle.srp.specs.Descriptors.{standing, standing_size_lem, placeless, giving, chosen};
ghost use Rattle.command.specs.Reading.{LiesIn};

use srp::Descriptor;
use wire::layout::{DIRECT, INDIRECT, SEGMENT, TABLE_DESCRIPTOR};

// How many bytes stand in the message.
pub fn standing_size(d: Descriptor) -> usize
    ensures { result ≡ standing_size_lem d }
{
    match d.format {
        DIRECT => SEGMENT,
        INDIRECT => SEGMENT * (d.count as usize),
        _ => 0,
    }
}

// The memory descriptors that stand in the message: a direct descriptor, or the copies of a table's first entries.
pub fn standing(msg: &[u8], d: Descriptor) -> &[u8]
    requires { LiesIn msg.now d }
    ensures { (result.now ≡ standing d msg.now) × (length result.now ≡ standing_size_lem d) }
{
    match d.format {
        DIRECT => &msg[d.at..d.at + SEGMENT],
        INDIRECT => {
            let start = d.at + TABLE_DESCRIPTOR;
            &msg[start..start + SEGMENT * (d.count as usize)]
        }
        _ => &[],
    }
}

// A descriptor as it is kept without its message: its place there is gone.
pub fn placeless(d: Descriptor) -> Descriptor
    ensures { result ≡ placeless d }
{
    Descriptor { at: 0, ..d }
}

// The segments: what stands in the message where that is all, else the fetched table.
pub fn segment_list<'a>(standing: &'a [u8], table: &'a [u8], d: Descriptor) -> &'a [u8]
    ensures { result.now ≡ chosen (giving d standing.now) table.now }
{
    if d.format != INDIRECT {
        return standing;
    }
    if (d.len as usize) == SEGMENT * (d.count as usize) {
        return standing;
    }
    table
}
