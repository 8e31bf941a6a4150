// A port of which no RDMA operation crosses a multiple of 1,024.
use crate::{log_in, read};
use owner::Session;
use std::io;

const BOUNDARY: u64 = 1024;

// The initiator logs in anew; 1,300 bytes in from 1100h on. 512 bytes end the first piece and the third, 1400h the second.
pub fn data_in(rt: &impl Print, s: &mut Session) -> io::Result<()> {
    println!(rt; "a second login, boundaries of 1,024 bytes: 1,300 bytes in from 1100h on")?;
    log_in(rt, s, BOUNDARY)?;
    read(rt, s, 0x18, 0x1100)
}
