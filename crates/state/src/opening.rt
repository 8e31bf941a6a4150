// What most calls check first: whether the channel is open, and whether the open command with a tag has its tables.
ghost use Rattle.state.specs.Opening.{OpenIs, ReadyIs};

use srp::Refusal;
use words::{Head, PORT, waiting};

// The head of an open channel. Refused 21.
pub fn open_head(s: &[u64; PORT]) -> Result<Head, Refusal>
    ensures { OpenIs s.now result }
{
    let h = words::get_head(s);
    if h.live { Ok(h) } else { Err(Refusal::Closed) }
}

// The slot of the open command with a tag that does not wait for its tables. Refused 24, 33.
pub fn find_ready(s: &[u64; PORT], tag: u64) -> Result<usize, Refusal>
    ensures { ReadyIs s.now tag result }
{
    let i = crate::find(s, tag).ok_or(Refusal::TagNotOpen)?;
    if waiting::load_waiting(s, i) {
        return Err(Refusal::Waiting);
    }
    Ok(i)
}
