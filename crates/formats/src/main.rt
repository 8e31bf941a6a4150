// formats: prints how the values of an SRP_CMD's byte 5 divide, a line for each agreement: the agreed formats as a login has them, how many values pass, draw
// 5 and draw 6. What is printed is `table` of specs/Table.antt.
#![tactic(auto)]

mod lines;

use lines::LINE;
use std::io;

// the head and four agreements
const TABLE: usize = 5 * LINE;

fn main(rt: HostRuntime) -> io::Result<()> {
    let mut text = [0u8; TABLE];
    let n = lines::put_table(&mut text);
    rt.write_all(&text[..n])
}
