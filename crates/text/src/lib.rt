// Text in a lent buffer. Each function writes behind the first `at` bytes of a text, keeps what stands behind what it wrote, and answers where that ends.
#![tactic(auto)]

ghost use Rattle.std.specs.Prelude.{◌≡◌, [], ◌∷◌, ◌+◌, ◌≤◌, ◌<◌, length};
ghost use Rattle.srp.specs.Outside.{hex_digit_lem, hex, decimal};
ghost use Rattle.text.specs.Appending.{Appends};

pub const SPACE: u8 = 0x20;

pub const NEWLINE: u8 = 0x0a;

const DIGITS: [u8; 16] = *b"0123456789abcdef";

pub fn put_byte(text: &mut [u8], at: usize, b: u8) -> usize
    requires { at < length text.old }
    ensures { Appends text.old at (b ∷ []) text.new result }
{
    text[at] = b;
    at + 1
}

pub fn put_bytes(text: &mut [u8], at: usize, s: &[u8]) -> usize
    requires { at + length s.now ≤ length text.old }
    ensures { Appends text.old at s.now text.new result }
{
    let end = at + s.len();
    text[at..end].copy_from_slice(s);
    end
}

fn hex_digit(n: u8) -> u8
    requires { n < 16 }
    ensures { result ≡ hex_digit_lem n }
{
    DIGITS[n as usize]
}

// The lowest `count` hexadecimal digits of n.
pub fn put_hex(text: &mut [u8], at: usize, n: u64, count: usize) -> usize
    requires { (count ≤ 16) × (at + count ≤ length text.old) }
    ensures { Appends text.old at (hex count n) text.new result }
{
    for i in 0..count {
        let place = (count - 1 - i) as u64;
        let digit = n >> (4 * place) & 15;
        text[at + i] = hex_digit(digit as u8);
    }
    at + count
}

// The decimal digits of n: those of a tenth of it, and its last.
pub fn put_decimal(text: &mut [u8], at: usize, n: u64) -> usize
    requires { at + length (decimal n) ≤ length text.old }
    ensures { Appends text.old at (decimal n) text.new result }
{
    if n < 10 {
        return put_byte(text, at, b'0' + n as u8);
    }
    let end = put_decimal(text, at, n / 10);
    put_byte(text, end, b'0' + (n % 10) as u8)
}
