// Numbers and bits in byte slices: the fields of crate srp's layouts, read and written at an offset; whether formats have a bit other than 1 and 2.
// A field must lie inside the slice. Numbers are big-endian.
#![tactic(auto)]

pub mod layout;

ghost use Rattle.std.specs.Prelude.{◌≡◌, ◌++◌, ◌+◌, ◌≤◌, ◌<◌, ◌/◌, ◌%◌, ◌^◌, length, take, drop};
ghost use Rattle.srp.specs.Limits.{both_formats};
ghost use Rattle.srp.specs.Bytes.{Field, get, put, part, replaced, zeros};
ghost use Rattle.srp.specs.Descriptors.{same_bytes};
ghost use Rattle.srp.specs.Requests.{other_formats_lem};

// ── numbers of 1, 2, 4 and 8 bytes

// The N bytes from `at` on.
fn chunk<const N: usize>(s: &[u8], at: usize) -> [u8; N]
    requires { at + N ≤ length s.now }
    ensures { result ≡ part (Field.bytes at N) s.now }
{
    let mut bytes = [0; N];
    bytes.copy_from_slice(&s[at..at + N]);
    bytes
}

// They become `bytes`.
fn put_chunk<const N: usize>(s: &mut [u8], at: usize, bytes: [u8; N])
    requires { at + N ≤ length s.old }
    ensures { s.new ≡ take at s.old ++ (bytes.entry ++ drop (at + N) s.old) }
{
    s[at..at + N].copy_from_slice(&bytes);
}

pub fn read8(s: &[u8], at: usize) -> u8
    requires { at + 1 ≤ length s.now }
    ensures { result ≡ get (Field.bytes at 1) s.now }
{
    s[at]
}

pub fn read16(s: &[u8], at: usize) -> u16
    requires { at + 2 ≤ length s.now }
    ensures { result ≡ get (Field.bytes at 2) s.now }
{
    u16::from_be_bytes(chunk(s, at))
}

pub fn read32(s: &[u8], at: usize) -> u32
    requires { at + 4 ≤ length s.now }
    ensures { result ≡ get (Field.bytes at 4) s.now }
{
    u32::from_be_bytes(chunk(s, at))
}

pub fn read64(s: &[u8], at: usize) -> u64
    requires { at + 8 ≤ length s.now }
    ensures { result ≡ get (Field.bytes at 8) s.now }
{
    u64::from_be_bytes(chunk(s, at))
}

pub fn write8(s: &mut [u8], at: usize, v: u8)
    requires { at + 1 ≤ length s.old }
    ensures { s.new ≡ put (Field.bytes at 1) v s.old }
{
    s[at] = v;
}

pub fn write16(s: &mut [u8], at: usize, v: u16)
    requires { at + 2 ≤ length s.old }
    ensures { s.new ≡ put (Field.bytes at 2) v s.old }
{
    put_chunk(s, at, v.to_be_bytes());
}

pub fn write32(s: &mut [u8], at: usize, v: u32)
    requires { at + 4 ≤ length s.old }
    ensures { s.new ≡ put (Field.bytes at 4) v s.old }
{
    put_chunk(s, at, v.to_be_bytes());
}

pub fn write64(s: &mut [u8], at: usize, v: u64)
    requires { at + 8 ≤ length s.old }
    ensures { s.new ≡ put (Field.bytes at 8) v s.old }
{
    put_chunk(s, at, v.to_be_bytes());
}

// ── bits of a byte, by a mask and a shift

// Of byte b the bits from `low` on, `count` of them.
pub fn bits_of(b: u8, low: u8, count: u8) -> u8
    requires { low + count ≤ 8 }
    ensures { result ≡ b / 2 ^ low % 2 ^ count }
{
    let mask = (1u32 << (count as u32)) - 1;
    ((b as u32) >> (low as u32) & mask) as u8
}

// Byte b with other bits there.
pub fn with_bits(b: u8, low: u8, count: u8, v: u8) -> u8
    requires { (low + count ≤ 8) × (v < 2 ^ count) }
    ensures { result ≡ replaced low count v b }
{
    let end = (low as u32) + (count as u32);
    let above = (b as u32) >> end << end;
    let below = (b as u32) & ((1u32 << (low as u32)) - 1);
    (above | (v as u32) << (low as u32) | below) as u8
}

pub fn read_bits(s: &[u8], at: usize, low: u8, count: u8) -> u8
    requires { (at < length s.now) × (low + count ≤ 8) }
    ensures { result ≡ get (Field.bits at low count) s.now }
{
    bits_of(s[at], low, count)
}

pub fn write_bits(s: &mut [u8], at: usize, low: u8, count: u8, v: u8)
    requires { (at < length s.old) × (low + count ≤ 8) × (v < 2 ^ count) }
    ensures { s.new ≡ put (Field.bits at low count) v s.old }
{
    s[at] = with_bits(s[at], low, count, v);
}

// ── formats as bits, of a login and as look is given them

// Whether a bit is set that is neither 1 nor, where it is supported, 2.
pub fn other_formats(supported: u32, formats: u32) -> bool
    requires { supported ≤ both_formats }
    ensures { result ≡ other_formats_lem supported formats }
{
    formats % 2 == 1 || supported + 1 < formats
}

// ── lists

// The first n bytes are set to 0.
pub fn clear(s: &mut [u8], n: usize)
    requires { n ≤ length s.old }
    ensures { s.new ≡ zeros n ++ drop n s.old }
{
    s[..n].fill(0);
}

// Whether the bytes of `a` begin `b`.
pub fn begins(a: &[u8], b: &[u8]) -> bool
    requires { length a.now ≤ length b.now }
    ensures { result ≡ same_bytes a.now (take (length a.now) b.now) }
{
    b.starts_with(a)
}
