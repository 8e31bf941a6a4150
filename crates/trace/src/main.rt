// trace: reads messages from standard input, one to a line as hexadecimal digits behind > or <, and prints the line of each. Blank lines and lines that
// start with # are skipped; of any other line the number and what is wrong are printed. What is printed is `trace_page` of specs/Input.antt.
#![tactic(auto)]

mod lines;
mod reader;

use page::MOST_READ;
use reader::Reader;
use std::io::{self, Read};

// how many bytes are read at a time
const PART: usize = 65536;

// What ends the program before its input does.
#[derive(Drop)]
enum Failure {
    Read,
    Write,
}

fn main(rt: HostRuntime) -> io::Result<()> {
    match print_input(&rt) {
        Ok(()) => Ok(()),
        Err(Failure::Read) => rt.eprint("trace: cannot read\n"),
        Err(Failure::Write) => {
            let _ = rt.eprint("trace: cannot write\n");
            Ok(())
        }
    }
}

fn print_input(rt: &HostRuntime) -> Result<(), Failure> {
    let mut input = [0u8; PART];
    let mut start = [0u8; MOST_READ];
    let mut r = Reader::first();
    // more turns than any input has bytes: a proved loop ends
    for _ in 0..u64::MAX {
        let n = rt.stdin().read(&mut input).map_err(|_| Failure::Read)?;
        if n == 0 {
            break;
        }
        print_lines(rt, &input[..n], &mut r, &mut start)?;
    }
    // the last line may have no line feed
    print_line(rt, &r, &start)
}

// Prints the lines that end in a part of the input.
fn print_lines(
    rt: &impl Print,
    input: &[u8],
    r: &mut Reader,
    start: &mut [u8; MOST_READ],
) -> Result<(), Failure> {
    let mut left = input;
    while let Some(behind) = r.read_line(left, start) {
        print_line(rt, r, start)?;
        *r = r.next();
        left = behind;
    }
    Ok(())
}

fn print_line(rt: &impl Print, r: &Reader, start: &[u8; MOST_READ]) -> Result<(), Failure> {
    let mut line = [0u8; lines::LONGEST];
    let n = lines::put_end(&mut line, r, start);
    rt.write_all(&line[..n]).map_err(|_| Failure::Write)
}
