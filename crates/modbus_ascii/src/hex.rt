// Bytes as two upper-case hexadecimal characters each.
ghost use Rattle.std.specs.Prelude.{◌≡◌, true, ◌+◌, ◌*◌, ◌/◌, ◌≤◌, ◌<◌, [], ◌∷◌, length, get_or, take, drop};
ghost use Rattle.std.proofs.lemmas.List.Edits.{sets};
ghost use Rattle.checksum.specs.Sums.{sum_from};
ghost use Rattle.wire.specs.Digits.{digit, digit_of, is_digit};
ghost use Rattle.modbus_ascii.specs.Hex.{hex, byte_of, of_hex, all_digits};

// The digit of a number below 16, without a test of that: `wire::digit` takes any number, and is slower.
fn half(d: u8) -> u8
    requires { d < 16 }
    ensures { result ≡ digit d }
{
    if d < 10 { b'0' + d } else { b'A' + (d - 10) }
}

pub fn put_byte(out: &mut [u8], at: usize, b: u8)
    requires { at + 2 ≤ length out.old }
    ensures { out.new ≡ sets out.old at (hex (b ∷ [])) }
{
    out[at] = half(b / 16);
    out[at + 1] = half(b % 16);
}

pub fn put_hex(out: &mut [u8], at: usize, src: &[u8])
    requires { at + 2 * length src.now ≤ length out.old }
    ensures { out.new ≡ sets out.old at (hex src.now) }
{
    for (i, b) in src.iter().enumerate() {
        put_byte(out, at + 2 * i, *b);
    }
}

fn is_digit(c: u8) -> bool
    ensures { result ≡ is_digit c }
{
    wire::digit_of(c) < 16
}

// Each is asked: with `all`, which ends at the first that is none, reading takes nearly twice as many instructions.
pub fn all_digits(s: &[u8]) -> bool
    ensures { result ≡ all_digits s.now }
{
    let mut good = true;
    for c in s {
        good &= is_digit(*c);
    }
    good
}

// The number of a digit, without a test: 0 to 9 are 48 to 57, and A to F are 65 to 70. `wire::digit_of` takes any character, and is slower.
fn number_of(c: u8) -> u8
    requires { is_digit c ≡ true }
    ensures { result ≡ digit_of c }
{
    c % 16 + c / 64 * 9
}

fn byte_of(h: u8, l: u8) -> u8
    requires { (is_digit h ≡ true) × (is_digit l ≡ true) }
    ensures { result ≡ byte_of h l }
{
    number_of(h) * 16 + number_of(l)
}

// Characters that are digits, two a byte.
#[derive(Clone, Copy)]
pub struct Digits<'a> {
    pub chars: &'a [u8],
    ghost all: { all_digits chars.now ≡ true },
}

impl Digits<'_> {
    // The byte at place k of those that they are.
    pub fn byte_at(&self, k: usize) -> u8
        requires { k < length self.now.chars.now / 2 }
        ensures { result ≡ get_or (of_hex self.now.chars.now) k 0 }
    {
        byte_of(self.chars[k * 2], self.chars[k * 2 + 1])
    }

    // The sum of the bytes, from a sum.
    pub fn sum(&self, from: u8) -> u8
        ensures { result ≡ sum_from from (of_hex self.now.chars.now) }
    {
        let mut c = from;
        for i in 0..self.chars.len() / 2 {
            c = checksum::sum_byte(c, self.byte_at(i));
        }
        c
    }

    // n of the bytes, from the third on, over the front of out.
    pub fn put_data(&self, out: &mut [u8], n: usize)
        requires { (n + 2 ≤ length self.now.chars.now / 2) × (n ≤ length out.old) }
        ensures { out.new ≡ sets out.old 0 (take n (drop 2 (of_hex self.now.chars.now))) }
    {
        for (i, b) in out[..n].iter_mut().enumerate() {
            *b = self.byte_at(i + 2);
        }
    }
}
