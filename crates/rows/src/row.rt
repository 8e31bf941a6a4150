// A packed row: its kind, how many bytes are lent and what fills them, the refusal (0 for none), three numbers of 4 bytes, the lengths
// of five strings of bytes, 2 bytes each, Q in 8 bytes, and the strings.

ghost use Rattle.std.specs.Prelude.{◌≡◌, ◌++◌, ◌+◌, ◌≤◌, ◌<◌, length, IfSome};
ghost use Rattle.rows.specs.Packed.{packed};
ghost use Rattle.command.specs.Reading.{LiesIn};

use srp::limits::{BOTH_FORMATS, LONGEST_AGREED};
use srp::{Descriptor, Direction};

const HEADER: usize = 34;

const LENT: usize = 1;

const FILL: usize = 2;

const REFUSAL: usize = 3;

const NUMBERS: usize = 4;

const LENGTHS: usize = 16;

const BOUNDARY: usize = 26;

// more than any row lends
const ROOM: usize = 64;

const FIELDS: u8 = 10;

// What a row asks.
#[derive(Clone, Copy)]
pub enum Kind {
    Look,
    Cut,
    Cdb,
    Segments,
}

impl From<u8> for Kind {
    fn from(byte: u8) -> Kind {
        match byte {
            b'l' => Kind::Look,
            b'c' => Kind::Cut,
            b'd' => Kind::Cdb,
            _ => Kind::Segments,
        }
    }
}

#[derive(Clone, Copy)]
pub struct Row<'a> {
    header: &'a [u8; HEADER],
    strings: [&'a [u8]; 5],
}

// How long a string of a row is.
fn length_of(header: &[u8; HEADER], i: usize) -> usize
    requires { i ≤ 4 }
    ensures { result < 65536 }
{
    wire::read16(header, LENGTHS + 2 * i) as usize
}

// The row that a slice begins with, and what is behind it; none where it is cut off.
pub fn first(s: &[u8]) -> Option<(Row<'_>, &[u8])>
    ensures shorter { IfSome result (λ f. length f.1.now < length s.now) }
    ensures few { IfSome result (λ f. length s.now ≤ length f.1.now + 327709) }
    ensures packed { IfSome result (λ f. s.now ≡ packed f.0 ++ f.1.now) }
{
    let (header, rest) = s.split_first_chunk::<HEADER>()?;
    let (a, rest) = rest.split_at_checked(length_of(header, 0))?;
    let (b, rest) = rest.split_at_checked(length_of(header, 1))?;
    let (c, rest) = rest.split_at_checked(length_of(header, 2))?;
    let (d, rest) = rest.split_at_checked(length_of(header, 3))?;
    let (e, behind) = rest.split_at_checked(length_of(header, 4))?;
    let strings = [a, b, c, d, e];
    Some((Row { header, strings }, behind))
}

impl Row<'_> {
    pub fn kind(&self) -> Kind {
        Kind::from(self.header[0])
    }

    // Whether the code answers as the row does.
    pub fn is_right(&self) -> bool {
        match self.kind() {
            Kind::Look | Kind::Cut => self.call_is_right(),
            Kind::Cdb => self.cdb_is_right(),
            Kind::Segments => self.segments_are_right(),
        }
    }

    fn number(&self, i: usize) -> u32
        requires { i ≤ 2 }
    {
        let header = self.header;
        wire::read32(header, NUMBERS + 4 * i)
    }

    // look: the agreed length and formats; the message. cut: M, R, the bytes handed out, Q; the list.
    fn ask(&self, buf: &mut [u8]) -> u32 {
        let [first, ..] = self.strings;
        if let Kind::Look = self.kind() {
            return exports::srp_look(first, self.number(0), self.number(1), buf);
        }
        let header = self.header;
        let boundary = wire::read64(header, BOUNDARY);
        exports::srp_cut(
            first,
            self.number(0),
            boundary,
            self.number(1),
            self.number(2),
            buf,
        )
    }

    // The call returns the refusal, and the lent bytes are the 32 of the answer, or all as they were.
    fn call_is_right(&self) -> bool {
        let fill = self.header[FILL];
        let mut buf = [fill; ROOM];
        let Some(lent) = buf.get_mut(..self.header[LENT] as usize) else {
            return false;
        };
        let refusal = self.ask(lent);
        let [_, _, _, answer, _] = self.strings;
        refusal == self.header[REFUSAL] as u32 && filled(&buf, answer, fill)
    }

    // cdb: the agreed length and formats; the message, the CDB.
    fn cdb_is_right(&self) -> bool {
        let [msg, _, _, cdb, _] = self.strings;
        command::cdb(msg, self.number(0), self.number(1)) == cdb
    }

    // segments: the message, both tables, both lists; or refusal 10.
    fn segments_are_right(&self) -> bool {
        let [msg, out_table, in_table, out_list, in_list] = self.strings;
        let Ok(c) = command::look_command(msg, LONGEST_AGREED, BOTH_FORMATS) else {
            return false;
        };
        let refusal = self.header[REFUSAL];
        if !fits(msg, out_table, c.out) || !fits(msg, in_table, c.inn) {
            return refusal == FIELDS;
        }
        let out = command::segments(msg, out_table, Direction::Out, LONGEST_AGREED, BOTH_FORMATS);
        let inn = command::segments(msg, in_table, Direction::In, LONGEST_AGREED, BOTH_FORMATS);
        refusal == 0 && out == out_list && inn == in_list
    }
}

// Whether a direction's table has F bytes and no field of it is bad.
fn fits(msg: &[u8], table: &[u8], d: Descriptor) -> bool
    requires { LiesIn msg.now d }
{
    table.len() == (command::fetched_length(d) as usize)
        && command::fields(command::standing(msg, d), table, d).is_some()
}

// Whether a buffer starts with the answer, and every other byte is what filled it.
fn filled(buf: &[u8], answer: &[u8], fill: u8) -> bool {
    buf.starts_with(answer) && buf.iter().skip(answer.len()).all(|b| *b == fill)
}
