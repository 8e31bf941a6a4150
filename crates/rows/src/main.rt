// Puts rows of questions and answers, made by a model of document 01 that was written elsewhere, to the code: look and the cut as C calls
// them, the CDB's part, the segments' parts. Standard input has the rows as tests/rows/pack packs them. Prints each row that is not right,
// and how many of each kind are.
#![tactic(auto)]

mod row;

use row::Kind;
use std::io;

const INPUT: usize = 262144;

#[derive(Clone, Copy, Default)]
struct Counts {
    look: usize,
    cut: usize,
    cdb: usize,
    segments: usize,
}

fn main(rt: HostRuntime) -> io::Result<()> {
    let mut buf = [0u8; INPUT];
    let n = input::read_full(&mut rt.stdin(), &mut buf)?;
    run(&rt, &buf[..n])
}

// Those of each kind that are right, after the last row; or where a row is cut off.
fn run(rt: &impl Print, s: &[u8]) -> io::Result<()> {
    let mut right = Counts::default();
    let mut rest = s;
    while let Some((row, behind)) = row::first(rest) {
        if row.is_right() {
            right = right.with(row.kind());
        } else {
            println!(rt; "wrong at byte {}", s.len() - rest.len())?;
        }
        rest = behind;
    }
    if !rest.is_empty() {
        return println!(rt; "cut off at byte {}", s.len() - rest.len());
    }
    println!(rt; "look {}", right.look)?;
    println!(rt; "cut {}", right.cut)?;
    println!(rt; "cdb {}", right.cdb)?;
    println!(rt; "segments {}", right.segments)
}

impl Counts {
    // One more of a kind; there are fewer rows than bytes.
    fn with(self, kind: Kind) -> Counts {
        match kind {
            Kind::Look => Counts {
                look: self.look.wrapping_add(1),
                ..self
            },
            Kind::Cut => Counts {
                cut: self.cut.wrapping_add(1),
                ..self
            },
            Kind::Cdb => Counts {
                cdb: self.cdb.wrapping_add(1),
                ..self
            },
            Kind::Segments => Counts {
                segments: self.segments.wrapping_add(1),
                ..self
            },
        }
    }
}
