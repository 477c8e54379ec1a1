// Fields of given widths in bits, packed one after the other into bytes, most significant bit first. The widths are the layout: the
// reader and the writer go by the same list. What each means is in specs/Fields.antt.
#![tactic(auto)]

ghost use Rattle.std.specs.Prelude.{◌≡◌, ◌+◌, ◌*◌, ◌/◌, ◌%◌, ◌^◌, ◌<◌, get_or, take};
ghost use Rattle.std.proofs.lemmas.List.Edits.{sets};
ghost use Rattle.wire.specs.Numbers.{be, field};
ghost use Rattle.bits.specs.Bits.{of_bits, bits_in};
ghost use Rattle.bits.specs.Fields.{joined, unpacked, total};

// v without its n lowest bits.
fn without_low(v: u64, n: usize) -> u64
    ensures { result ≡ v / 2 ^ n }
{
    if n < 64 { v >> n } else { 0 }
}

// v with the n lowest bits of x put after it, the lowest 64 bits of that.
fn with_low(v: u64, n: usize, x: u64) -> u64
    ensures { result ≡ (v * 2 ^ n + x % 2 ^ n) % 2 ^ 64 }
{
    if n < 64 { (v << n) + x % (1 << n) } else { x }
}

// The bits of the eight bytes from the i-th on.
fn eight_at(s: &[u8], i: usize) -> u64
    requires { i < 2 ^ 32 }
    ensures { result ≡ of_bits (field (bits_in s.now) (8 * i) 64) }
{
    let mut v = 0;
    for k in 0..8 {
        v = v * 256 + wire::byte_at(s, i + k) as u64;
    }
    v
}

// The 64 bits from a place on: of eight bytes, and of the ninth where the place is within a byte.
fn word_at(s: &[u8], at: usize) -> u64
    requires { at < 2 ^ 33 }
    ensures { result ≡ of_bits (field (bits_in s.now) at 64) }
{
    let i = at / 8;
    let p = at % 8;
    with_low(
        eight_at(s, i),
        p,
        without_low(wire::byte_at(s, i + 8) as u64, 8 - p),
    )
}

// The lowest 64 of w bits from a place on.
#[inline(always)]
fn bits_at(s: &[u8], at: usize, w: usize) -> u64
    requires { (at < 2 ^ 32) × (w < 256) }
    ensures { result ≡ of_bits (field (bits_in s.now) at w) % 2 ^ 64 }
{
    if w < 64 {
        without_low(word_at(s, at), 64 - w)
    } else {
        word_at(s, at + (w - 64))
    }
}

// The bits of the first k fields.
fn place_of(widths: &[u8], k: u8) -> usize
    ensures { (result ≡ total (take k widths.now)) × (result < 65536) }
{
    let mut at = 0;
    for i in 0..k {
        at += wire::byte_at(widths, i as usize) as usize;
    }
    at
}

// The lowest 64 bits of the field with k fields before it. Its caller knows the widths and k: in line, the place is no loop but a number.
#[inline(always)]
pub fn field_at(s: &[u8], widths: &[u8], k: u8) -> u64
    ensures { result ≡ get_or (unpacked widths.now s.now) k 0 % 2 ^ 64 }
{
    bits_at(
        s,
        place_of(widths, k),
        wire::byte_at(widths, k as usize) as usize,
    )
}

fn value_at(values: &[u64], i: usize) -> u64
    ensures { result ≡ get_or values.now i 0 }
{
    if i < values.len() { values[i] } else { 0 }
}

// The lowest 64 bits of those before a place among the bits of the fields' values; past their end the bits are 0.
pub fn word_before(widths: &[u8], values: &[u64], end: usize) -> u64
    ensures { result ≡ of_bits (field (joined widths.now values.now) 0 end) % 2 ^ 64 }
{
    let mut v = 0;
    let mut left = end;
    for (i, width) in widths.iter().enumerate() {
        let w = *width as usize;
        let x = value_at(values, i);
        if left < w {
            return with_low(v, left, without_low(x, w - left));
        }
        v = with_low(v, w, x);
        left -= w;
    }
    with_low(v, left, 0)
}

// Eight bytes from a place on, most significant first.
pub fn put_word(out: &mut [u8], at: usize, v: u64)
    ensures { out.new ≡ sets out.old at (be 8 v) }
{
    wire::put_all(out, at, &v.to_be_bytes());
}
