// The table, and its parts, each of which is written behind the first `at` bytes of a text. Each function answers where the text then ends.
ghost use Rattle.std.specs.Prelude.{◌≡◌, false, ◌++◌, ◌+◌, ◌*◌, ◌≤◌, length};
ghost use Rattle.srp.specs.Limits.{both_formats};
ghost use Rattle.srp.specs.Requests.{other_formats_lem};
ghost use Rattle.text.specs.Appending.{Appends};
ghost use Rattle.division.specs.Dividing.{values, division};
ghost use Rattle.formats.specs.Table.{aligned, line_length, line, table};

use division::Division;
use text::{NEWLINE, SPACE};

// Bytes of a line, its newline with them.
pub const LINE: usize = 30;

// none agreed, direct alone, indirect alone, both
const AGREEMENTS: [u32; 4] = [0x0000, 0x0002, 0x0004, 0x0006];

// A count, at most 256, behind spaces in three columns.
fn put_aligned(text: &mut [u8], at: usize, n: u32) -> usize
    requires { (n ≤ values) × (at + 3 ≤ length text.old) }
    ensures { Appends text.old at (aligned n) text.new result × (result ≡ at + 3) }
{
    if n < 10 {
        let end = text::put_bytes(text, at, b"  ");
        return text::put_decimal(text, end, n as u64);
    }
    if n < 100 {
        let end = text::put_byte(text, at, SPACE);
        return text::put_decimal(text, end, n as u64);
    }
    text::put_decimal(text, at, n as u64)
}

// The same behind a gap.
fn put_count(text: &mut [u8], at: usize, gap: &[u8], n: u32) -> usize
    requires { (n ≤ values) × (at + length gap.now + 3 ≤ length text.old) }
    ensures { Appends text.old at (gap.now ++ aligned n) text.new result × (result ≡ at + length gap.now + 3) }
{
    let end = text::put_bytes(text, at, gap);
    put_aligned(text, end, n)
}

// The line of the agreed formats.
fn put_line(text: &mut [u8], at: usize, formats: u32, d: Division) -> usize
    requires { (d.pass ≤ values) × (d.out ≤ values) × (d.inn ≤ values) × (at + line_length ≤ length text.old) }
    ensures { Appends text.old at (line formats d) text.new result × (result ≡ at + line_length) }
{
    let pass_at = text::put_hex(text, at, formats as u64, 4);
    let out_at = put_count(text, pass_at, b"      ", d.pass);
    let in_at = put_count(text, out_at, b"     ", d.out);
    let end = put_count(text, in_at, b"     ", d.inn);
    text::put_byte(text, end, NEWLINE)
}

// The same with its counts. Formats that are refused have no line.
fn put_agreement(text: &mut [u8], at: usize, formats: u32) -> usize
    requires formats_value { other_formats_lem both_formats formats ≡ false }
    requires line_length_in_bounds { at + line_length ≤ length text.old }
    ensures { Appends text.old at (line formats (division formats)) text.new result × (result ≡ at + line_length) }
{
    put_line(text, at, formats, division::divide(formats).unwrap())
}

// The head, and a line for each of the four agreements.
pub fn put_table(text: &mut [u8]) -> usize
    requires { 5 * line_length ≤ length text.old }
    ensures { Appends text.old 0 table text.new result }
{
    let mut at = text::put_bytes(text, 0, b"formats  pass  draw 5  draw 6\n");
    for formats in AGREEMENTS {
        at = put_agreement(text, at, formats);
    }
    at
}
