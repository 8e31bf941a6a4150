// The line in a lent buffer.
ghost use Rattle.std.specs.Prelude.{◌≡◌, [], ◌∷◌, ◌++◌, ◌+◌, ◌≤◌, length, drop};
ghost use Rattle.srp.specs.Writing.{placed};
ghost use Rattle.text.specs.Codes.{line_feed};
ghost use Rattle.page.specs.Page.{sign, letters, padded, count_text_lem, hex_text, number_text, over, blank, line_text, line_length, lead};

use crate::{Line, Name, Way};
use text::{NEWLINE, SPACE};

// Where the columns start, counted from 0, and how many there are.
const LETTERS_AT: usize = 2;

const TAG_AT: usize = 15;

const LUN_AT: usize = 32;

const NUMBER_AT: usize = 49;

const CODE_AT: usize = 55;

const COLUMNS: usize = 80;

// the largest number that five columns hold
const MOST: u64 = 99999;

impl Way {
    fn sign(self) -> u8
        ensures { result ≡ sign self }
    {
        match self {
            Way::Towards => b'>',
            Way::From => b'<',
        }
    }
}

impl Name {
    fn letters(self) -> [u8; 12]
        ensures { result ≡ padded 12 (letters self) }
    {
        match self {
            Name::LoginReq => *b"LOGIN_REQ   ",
            Name::TskMgmt => *b"TSK_MGMT    ",
            Name::Cmd => *b"CMD         ",
            Name::ILogout => *b"I_LOGOUT    ",
            Name::CredRsp => *b"CRED_RSP    ",
            Name::LoginRsp => *b"LOGIN_RSP   ",
            Name::LoginRej => *b"LOGIN_REJ   ",
            Name::Rsp => *b"RSP         ",
            Name::CredReq => *b"CRED_REQ    ",
            Name::TLogout => *b"T_LOGOUT    ",
            Name::Unknown => *b"UNKNOWN     ",
        }
    }
}

// The last digit of what is left of a number, or a space where nothing is left.
fn lead_of(rest: u64) -> u8
    ensures { result ≡ lead rest }
{
    if rest == 0 {
        return SPACE;
    }
    b'0' + (rest % 10) as u8
}

// A number in five columns.
fn count_text(n: u64) -> [u8; 5]
    ensures { result ≡ count_text_lem n }
{
    if MOST < n {
        return *b"*****";
    }
    [
        lead_of(n / 10000),
        lead_of(n / 1000),
        lead_of(n / 100),
        lead_of(n / 10),
        b'0' + (n % 10) as u8,
    ]
}

// 80 spaces and a line feed.
fn clear_line(buf: &mut [u8])
    requires { line_length ≤ length buf.old }
    ensures { buf.new ≡ blank ++ (line_feed ∷ drop line_length buf.old) }
{
    buf[..COLUMNS].fill(SPACE);
    buf[COLUMNS] = NEWLINE;
}

fn put_hex_entry(buf: &mut [u8], at: usize, entry: Option<u64>, count: usize)
    requires { (count ≤ 16) × (at + count ≤ length buf.old) }
    ensures { buf.new ≡ over at (hex_text count entry) buf.old }
{
    if let Some(n) = entry {
        text::put_hex(buf, at, n, count);
    }
}

fn put_number_entry(buf: &mut [u8], at: usize, entry: Option<u64>)
    requires { at + 5 ≤ length buf.old }
    ensures { buf.new ≡ over at (number_text entry) buf.old }
{
    if let Some(n) = entry {
        text::put_bytes(buf, at, &count_text(n));
    }
}

// The line is laid into the lent buffer from its last columns to its first, as its definition nests them.
pub fn put_line(buf: &mut [u8], l: Line)
    requires { line_length ≤ length buf.old }
    ensures { buf.new ≡ placed (line_text l ∷ []) buf.old }
{
    clear_line(buf);
    put_hex_entry(buf, CODE_AT, l.code, 8);
    put_number_entry(buf, NUMBER_AT, l.number);
    put_hex_entry(buf, LUN_AT, l.lun, 16);
    put_hex_entry(buf, TAG_AT, l.tag, 16);
    text::put_bytes(buf, LETTERS_AT, &l.name.letters());
    text::put_byte(buf, 0, l.way.sign());
}
