// A line as far as it was read: what it is, and of its message the length and, in `start`, the first 40 bytes, which are all that its line says.
ghost use Rattle.std.specs.Prelude.{◌≡◌, MatchOption};
ghost use Rattle.trace.specs.Input.{is_space_lem, digit_of_lem, content_by};
ghost use Rattle.trace.specs.Reading.{fresh, followed, byte_with_lem, with_digit_lem, turned, kept, ReadsAll, ReadsLine};

use page::{MOST_READ, Way};
use text::NEWLINE;

// What is wrong with a line.
#[derive(Clone, Copy)]
pub enum Fault {
    NoSign,
    NoDigit,
    Odd,
}

// What a line is, as far as it was read.
#[derive(Clone, Copy)]
pub enum Content {
    Nothing,
    Comment,
    Message(Way),
    Wrong(Fault),
}

// The line's number, from 1 on; how many digits it has; of the byte that is read, the value so far.
#[derive(Clone, Copy)]
pub struct Reader {
    pub number: u64,
    pub content: Content,
    pub digits: usize,
    pub last: u8,
}

fn is_space(c: u8) -> bool
    ensures { result ≡ is_space_lem c }
{
    matches!(c, b' ' | b'\t' | b'\r')
}

// The value of a hexadecimal digit.
fn digit_of(c: u8) -> Option<u8>
    ensures { result ≡ digit_of_lem c }
{
    match c {
        b'0'..=b'9' => Some(c - b'0'),
        b'A'..=b'F' => Some(10 + (c - b'A')),
        b'a'..=b'f' => Some(10 + (c - b'a')),
        _ => None,
    }
}

// What a line is, by its first character.
fn content_of(c: u8) -> Content
    ensures { result ≡ content_by c }
{
    match c {
        b'#' => Content::Comment,
        b'>' => Content::Message(Way::Towards),
        b'<' => Content::Message(Way::From),
        _ => Content::Wrong(Fault::NoSign),
    }
}

impl Reader {
    fn at_line(number: u64) -> Self
        ensures { result ≡ fresh number }
    {
        Reader {
            number,
            content: Content::Nothing,
            digits: 0,
            last: 0,
        }
    }

    pub fn first() -> Self
        ensures { result ≡ fresh 1 }
    {
        Self::at_line(1)
    }

    // The line behind this one.
    pub fn next(&self) -> Self
        ensures { result ≡ followed self.now }
    {
        Self::at_line(self.number.wrapping_add(1))
    }

    // The byte that is read, with one digit more.
    fn byte_with(&self, v: u8) -> u8
        ensures { result ≡ byte_with_lem self.now v }
    {
        if self.digits % 2 == 0 {
            return v;
        }
        self.last % 16 * 16 + v % 16
    }

    fn add_digit(&mut self, digit: Option<u8>)
        ensures { self.new ≡ with_digit_lem digit self.old }
    {
        match digit {
            Some(v) => {
                self.last = self.byte_with(v);
                self.digits = self.digits.wrapping_add(1);
            }
            None => self.content = Content::Wrong(Fault::NoDigit),
        }
    }

    // One character more, which is no line feed.
    fn turn(&mut self, c: u8)
        ensures { self.new ≡ turned self.old c }
    {
        if is_space(c) {
            return;
        }
        match self.content {
            Content::Nothing => self.content = content_of(c),
            Content::Message(_) => self.add_digit(digit_of(c)),
            Content::Comment | Content::Wrong(_) => {}
        }
    }

    // The byte that is read stands among the first, if it is one of them.
    fn keep(&self, start: &mut [u8; MOST_READ])
        ensures { start.new ≡ kept self.now start.old }
    {
        if self.digits == 0 {
            return;
        }
        let at = (self.digits - 1) / 2;
        if at < start.len() {
            start[at] = self.last;
        }
    }

    // Reads on in a line, up to and with its line feed: what stands behind it is left. Or to the end of the input, and nothing is.
    pub fn read_line<'a>(
        &mut self,
        input: &'a [u8],
        start: &mut [u8; MOST_READ],
    ) -> Option<&'a [u8]>
        ensures { MatchOption result (ReadsAll input.now self.old start.old self.new start.new) (λ left. ReadsLine input.now self.old start.old left.now self.new start.new) }
    {
        for (i, c) in input.iter().enumerate() {
            if *c == NEWLINE {
                return Some(&input[i + 1..]);
            }
            self.turn(*c);
            self.keep(start);
        }
        None
    }
}
