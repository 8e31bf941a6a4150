// What is printed of a line: the line of its message, or its number and what is wrong, or nothing.
ghost use Rattle.std.specs.Prelude.{◌≡◌, ◌+◌, ◌≤◌, length, take};
ghost use Rattle.text.specs.Appending.{Appends};
ghost use Rattle.trace.specs.Input.{fault_words, fault_line};
ghost use Rattle.trace.specs.Reading.{longest_words, longest, message_end, line_end};

use crate::reader::{Content, Fault, Reader};
use page::{LINE, MOST_READ, Way};
use text::NEWLINE;

// No line is longer: neither a message's, nor a number of 20 digits and the longest words.
pub const LONGEST: usize = 96;

fn put_words(text: &mut [u8], at: usize, fault: Fault) -> usize
    requires { at + longest_words ≤ length text.old }
    ensures { Appends text.old at (fault_words fault) text.new result }
{
    match fault {
        Fault::NoSign => text::put_bytes(text, at, b": neither > nor < at its start"),
        Fault::NoDigit => text::put_bytes(text, at, b": a character that is no hexadecimal digit"),
        Fault::Odd => text::put_bytes(text, at, b": an odd number of digits"),
    }
}

fn put_fault(text: &mut [u8; LONGEST], number: u64, fault: Fault) -> usize
    ensures { Appends text.old 0 (fault_line number fault) text.new result }
{
    let number_at = text::put_bytes(text, 0, b"line ");
    let words_at = text::put_decimal(text, number_at, number);
    let end = put_words(text, words_at, fault);
    text::put_byte(text, end, NEWLINE)
}

fn put_message(text: &mut [u8; LONGEST], r: &Reader, way: Way, start: &[u8; MOST_READ]) -> usize
    ensures { (result ≤ longest) × (take result text.new ≡ message_end r.now way start.now) }
{
    if r.digits % 2 == 1 {
        return put_fault(text, r.number, Fault::Odd);
    }
    let len = r.digits / 2;
    page::put_start(&start[..len.min(MOST_READ)], len, way, text);
    LINE
}

pub fn put_end(text: &mut [u8; LONGEST], r: &Reader, start: &[u8; MOST_READ]) -> usize
    ensures { (result ≤ longest) × (take result text.new ≡ line_end r.now start.now) }
{
    match r.content {
        Content::Nothing | Content::Comment => 0,
        Content::Message(way) => put_message(text, r, way, start),
        Content::Wrong(fault) => put_fault(text, r.number, fault),
    }
}
