// Numbers read from bytes and written to them. Every reader is total: a byte past the end reads as 0. Every store is total: a byte
// past the end is not stored. What each means is in specs/Numbers.antt.
#![tactic(auto)]

mod refusals;

ghost use Rattle.std.specs.Prelude.{◌≡◌, ◌-◌, ◌%◌, ◌^◌, ◌≤◌, ◌<◌, get_or, set, take, drop};
ghost use Rattle.std.proofs.lemmas.List.Edits.{sets};
ghost use Rattle.wire.specs.Digits.{digit, digit_of};
ghost use Rattle.wire.specs.Numbers.{le, of_le, be, of_be, bcd, of_bcd, is_bcd, field, of_bcd_byte, bcd_byte, is_bcd_byte};

pub use refusals::Refusal;

// What a writer answers: how many bytes it wrote over the front of its output, or why it wrote none.
pub type Written = Result<usize, Refusal>;

// a - b, and 0 where that is below 0.
pub fn minus(a: usize, b: usize) -> usize
    ensures { result ≡ a - b }
{
    a.saturating_sub(b)
}

// The first n bytes, or all where there are fewer.
pub fn front(s: &[u8], n: usize) -> &[u8]
    ensures { result.now ≡ take n s.now }
{
    if n <= s.len() { &s[..n] } else { s }
}

// What follows the first n bytes.
pub fn rest(s: &[u8], n: usize) -> &[u8]
    ensures { result.now ≡ drop n s.now }
{
    if n <= s.len() { &s[n..] } else { &s[..0] }
}

pub fn byte_at(s: &[u8], at: usize) -> u8
    ensures { result ≡ get_or s.now at 0 }
{
    if at < s.len() { s[at] } else { 0 }
}

// The first w bytes, least significant first: one loop over the width, from the last byte on, and bytes past the end are 0.
fn le_of(s: &[u8], w: usize) -> u64
    requires { w ≤ 8 }
    ensures { (result ≡ of_le (field s.now 0 w)) × (result < 256 ^ w) }
{
    let mut v = 0;
    for i in (0..w).rev() {
        v = v * 256 + byte_at(s, i) as u64;
    }
    v
}

// One for each width, and so the stores: a number has its type, and `to_le_bytes` is each type's own.
pub fn le16_at(s: &[u8], at: usize) -> u16
    ensures { result ≡ of_le (field s.now at 2) }
{
    le_of(rest(s, at), 2) as u16
}

pub fn le32_at(s: &[u8], at: usize) -> u32
    ensures { result ≡ of_le (field s.now at 4) }
{
    le_of(rest(s, at), 4) as u32
}

pub fn le64_at(s: &[u8], at: usize) -> u64
    ensures { result ≡ of_le (field s.now at 8) }
{
    le_of(rest(s, at), 8)
}

// By its two bytes, which may lie past the end.
pub fn be16_at(s: &[u8], at: usize) -> u16
    ensures { result ≡ of_be (field s.now at 2) }
{
    let p = rest(s, at);
    byte_at(p, 0) as u16 * 256 + byte_at(p, 1) as u16
}

fn of_bcd(b: u8) -> u32
    ensures { result ≡ of_bcd_byte b }
{
    let v = b as u32;
    v / 16 * 10 + v % 16
}

// The first four bytes, as decimal digits.
pub fn bcd32(s: &[u8]) -> u32
    ensures { result ≡ of_bcd (field s.now 0 4) }
{
    let a = of_bcd(byte_at(s, 0));
    let b = of_bcd(byte_at(s, 1));
    let c = of_bcd(byte_at(s, 2));
    let d = of_bcd(byte_at(s, 3));
    ((a * 100 + b) * 100 + c) * 100 + d
}

fn is_bcd(b: u8) -> bool
    ensures { result ≡ is_bcd_byte b }
{
    (b / 16 < 10) & (b % 16 < 10)
}

// Whether the first four bytes are decimal digits.
pub fn is_bcd32(s: &[u8]) -> bool
    ensures { result ≡ is_bcd (field s.now 0 4) }
{
    is_bcd(byte_at(s, 0)) & is_bcd(byte_at(s, 1)) & is_bcd(byte_at(s, 2)) & is_bcd(byte_at(s, 3))
}

pub fn put(out: &mut [u8], at: usize, b: u8)
    ensures { out.new ≡ set out.old at b }
{
    if at < out.len() {
        out[at] = b;
    }
}

// All of src, from a place on.
pub fn put_all(out: &mut [u8], at: usize, src: &[u8])
    ensures { out.new ≡ sets out.old at src.now }
{
    let part = front(src, minus(out.len(), at));
    if at < out.len() {
        out[at..at + part.len()].copy_from_slice(part);
    }
}

pub fn put_le16(out: &mut [u8], at: usize, v: u16)
    ensures { out.new ≡ sets out.old at (le 2 v) }
{
    put_all(out, at, &v.to_le_bytes());
}

pub fn put_le32(out: &mut [u8], at: usize, v: u32)
    ensures { out.new ≡ sets out.old at (le 4 v) }
{
    put_all(out, at, &v.to_le_bytes());
}

pub fn put_le64(out: &mut [u8], at: usize, v: u64)
    ensures { out.new ≡ sets out.old at (le 8 v) }
{
    put_all(out, at, &v.to_le_bytes());
}

pub fn put_be16(out: &mut [u8], at: usize, v: u16)
    ensures { out.new ≡ sets out.old at (be 2 v) }
{
    put_all(out, at, &v.to_be_bytes());
}

fn to_bcd(d: u32) -> u8
    ensures { result ≡ bcd_byte (d % 100) }
{
    let v = d % 100;
    (v / 10 * 16 + v % 10) as u8
}

// Four bytes of decimal digits at the front.
pub fn put_bcd32(out: &mut [u8], v: u32)
    ensures { out.new ≡ sets out.old 0 (bcd 4 v) }
{
    let bytes = [
        to_bcd(v / 100 / 100 / 100),
        to_bcd(v / 100 / 100),
        to_bcd(v / 100),
        to_bcd(v),
    ];
    put_all(out, 0, &bytes);
}

// The upper-case hexadecimal digit of d, and 0 where d is above 15.
pub fn digit(d: u64) -> u8
    ensures { result ≡ digit d }
{
    byte_at(b"0123456789ABCDEF", d as usize)
}

// The letters among the digits, from the first to the last: named, so that a wrong one is refused by what `digit_of` says.
const A: u8 = b'A';

const F: u8 = b'F';

// The number whose digit is c, and 16 where c is none, as the definition has it. Lower case is none.
pub fn digit_of(c: u8) -> u8
    ensures { result ≡ digit_of c }
{
    match c {
        b'0'..=b'9' => c - b'0',
        A..=F => c - A + 10,
        _ => 16,
    }
}
