// Moves that leave the line: those of commands that end, and one whose last piece a single step handed out. The others keep their order.
ghost use Rattle.std.specs.Prelude.{◌≡◌};
ghost use Rattle.state.specs.Leaving.{other_tag_lem, CommandEnds, MoveLeaves, Leaves};

use crate::{Ending, Leaving};
use srp::Place;
use words::{PORT, commands};

// Whether it is the end of a command with another tag.
fn other_tag(which: Ending, tag: u64) -> bool
    ensures { result ≡ other_tag_lem which tag }
{
    match which {
        Ending::Finished(t) => t != tag,
        Ending::Aborted(_) => false,
    }
}

// Whether the open command with a tag is one that ends.
fn command_ends(s: &[u64; PORT], which: Ending, tag: u64) -> bool
    ensures { CommandEnds s.now which tag result }
{
    if other_tag(which, tag) {
        return false;
    }
    let Some(i) = crate::find(s, tag) else {
        return false;
    };
    crate::ended(which, commands::load_request(s, i))
}

fn move_leaves(s: &[u64; PORT], which: Leaving, x: Place) -> bool
    ensures { MoveLeaves s.now which x result }
{
    match which {
        Leaving::Handed(y) => y == x,
        Leaving::Ended(e) => command_ends(s, e, x.tag),
    }
}

// Takes moves out of the line.
pub fn leave(s: &mut [u64; PORT], which: Leaving)
    ensures { Leaves which s.old s.new }
{
    let n = line::len(s);
    let mut kept: usize = 0;
    for i in 0..n {
        let x = line::at(s, i);
        if !move_leaves(s, which, x) {
            if kept < i {
                line::put(s, kept, x);
            }
            kept += 1;
        }
    }
    line::set_len(s, kept);
}
