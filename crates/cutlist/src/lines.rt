// cutlist's lines. Each function writes behind the first `at` bytes of a text and answers where the text then ends.
ghost use Rattle.std.specs.Prelude.{◌≡◌, [], ◌∷◌, ◌++◌, ◌+◌, ◌≤◌, ◌<◌, length};
ghost use Rattle.srp.specs.Outside.{hex, decimal, letter, operation_line, refused_line};
ghost use Rattle.text.specs.Appending.{Appends};
ghost use Rattle.cutlist.specs.Lines.{longest_line};

use srp::{Kind, Piece, Refusal};
use text::{NEWLINE, SPACE};

fn letter_of(kind: Kind) -> u8
    ensures { result ≡ letter kind }
{
    match kind {
        Kind::Read => b'R',
        Kind::Write => b'W',
    }
}

// R or W, and a space.
fn put_letter(text: &mut [u8], at: usize, kind: Kind) -> usize
    requires { at + 2 ≤ length text.old }
    ensures { Appends text.old at (letter kind ∷ 0x20 ∷ []) text.new result }
{
    let end = text::put_byte(&mut *text, at, letter_of(kind));
    text::put_byte(text, end, SPACE)
}

// The lowest `count` hexadecimal digits of n, and a space.
fn put_number(text: &mut [u8], at: usize, n: u64, count: usize) -> usize
    requires { (count ≤ 16) × (at + count < length text.old) }
    ensures { Appends text.old at (hex count n ++ (0x20 ∷ [])) text.new result }
{
    let end = text::put_hex(&mut *text, at, n, count);
    text::put_byte(text, end, SPACE)
}

// The number below 1,000 that a line ends with: no piece is longer than 512, no refusal above 33.
fn put_last(text: &mut [u8], at: usize, n: u32) -> usize
    requires { (n < 1000) × (at + 4 ≤ length text.old) }
    ensures { Appends text.old at (decimal n ++ (0x0a ∷ [])) text.new result }
{
    let end = text::put_decimal(&mut *text, at, n as u64);
    text::put_byte(text, end, NEWLINE)
}

// The line of an operation: at most 32 bytes.
pub fn put_operation(text: &mut [u8], at: usize, kind: Kind, p: Piece) -> usize
    requires { (p.len < 1000) × (at + longest_line ≤ length text.old) }
    ensures { Appends text.old at (operation_line kind p) text.new result }
{
    let handle_at = put_letter(&mut *text, at, kind);
    let address_at = put_number(&mut *text, handle_at, p.handle as u64, 8);
    let length_at = put_number(&mut *text, address_at, p.address, 16);
    put_last(text, length_at, p.len)
}

// The line of a refusal: at most 12 bytes.
pub fn put_refusal(text: &mut [u8], refusal: Refusal) -> usize
    requires { 12 ≤ length text.old }
    ensures { Appends text.old 0 (refused_line refusal) text.new result }
{
    let number_at = text::put_bytes(&mut *text, 0, b"refused ");
    put_last(text, number_at, answer::number_of(refusal))
}
