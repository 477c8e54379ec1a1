// The Modbus envelope ASCII, read and written. Nothing may follow an envelope. What each function answers is in specs/.
#![tactic(auto)]

mod hex;

ghost use Rattle.std.specs.Prelude.{◌≡◌, not, eqb, ◌+◌, ◌*◌, ◌≤◌, [], ◌∷◌, ◌++◌, length, take};
ghost use Rattle.std.proofs.lemmas.List.Edits.{sets};
ghost use Rattle.checksum.specs.Sums.{sum_from, lrc};
ghost use Rattle.wire.specs.Answer.{judged};
ghost use Rattle.wire.specs.Refusal.{first};
ghost use Rattle.modbus.specs.Envelope.{message, message_of, content_of, bytes_of, counted_of, envelope_output, WritesEnvelope};
ghost use Rattle.modbus_ascii.specs.Hex.{hex, of_hex};
ghost use Rattle.modbus_ascii.specs.Ascii.{ascii, carriage_return, line_feed, inside, bad_marks, bad_characters, ascii_rules, read_ascii, ascii_output};

use hex::Digits;
use modbus::envelope;
use modbus::envelope::{Envelope, Message};
use wire::{Refusal, Written};

// Length counts the data, which stands over the front of the output.
#[derive(Clone, Copy, Debug, PartialEq, Eq)]
pub struct Ascii {
    pub address: u8,
    pub function: u8,
    pub length: usize,
}

// What stands between the colon and the end marks.
fn inside(chars: &[u8]) -> &[u8]
    ensures { result.now ≡ inside chars.now }
{
    envelope::between(chars, 1, 2)
}

fn bad_marks(chars: &[u8]) -> bool
    ensures { result ≡ bad_marks chars.now }
{
    !chars.starts_with(b":") | !chars.ends_with(b"\r\n")
}

fn bad_characters(chars: &[u8]) -> bool
    ensures { result ≡ bad_characters chars.now }
{
    let s = inside(chars);
    !hex::all_digits(s) | (s.len() % 2 != 0)
}

// 64, of what stands between the marks.
fn bad_lrc(s: &Digits) -> bool
    ensures { result ≡ not (eqb (sum_from 0 (of_hex s.now.chars.now)) 0) }
{
    s.sum(0) != 0
}

fn judge(chars: &[u8]) -> Result<(), Refusal>
    ensures { result ≡ judged tt (first (ascii_rules chars.now)) }
{
    if envelope::too_short(chars, 9) {
        return Err(Refusal::ShortLine);
    }
    if envelope::too_long(chars, 513) {
        return Err(Refusal::LongLine);
    }
    if bad_marks(chars) {
        return Err(Refusal::BadMarks);
    }
    if bad_characters(chars) {
        return Err(Refusal::BadCharacters);
    }
    let s = Digits {
        chars: inside(chars),
    };
    if bad_lrc(&s) {
        return Err(Refusal::WrongLrc);
    }
    Ok(())
}

// The data goes over the front of out.
pub fn read_ascii(chars: &[u8], out: &mut [u8]) -> Result<Ascii, Refusal>
    ensures { (result ≡ read_ascii chars.now out.old) × (out.new ≡ ascii_output chars.now out.old) }
{
    judge(chars)?;
    let s = Digits {
        chars: inside(chars),
    };
    let n = wire::minus(s.chars.len() / 2, 3);
    if envelope::no_room(n, out) {
        return Err(Refusal::NoRoom);
    }
    s.put_data(out, n);
    Ok(Ascii {
        address: s.byte_at(0),
        function: s.byte_at(1),
        length: n,
    })
}

fn lrc_of(m: &Message) -> u8
    ensures { result ≡ lrc (content_of (message_of m.now)) }
{
    checksum::lrc(checksum::sum_from(checksum::sum_byte(m.address, m.function), m.data))
}

// The LRC and the end marks.
fn put_end(out: &mut [u8], at: usize, lrc: u8)
    requires { at + 4 ≤ length out.old }
    ensures { out.new ≡ sets out.old at (hex (lrc ∷ []) ++ (carriage_return ∷ line_feed ∷ [])) }
{
    hex::put_byte(out, at, lrc);
    wire::put_all(out, at + 2, b"\r\n");
}

#[derive(Clone, Copy)]
struct InAscii;

impl Envelope for InAscii {
    ghost layout = { λ e. ascii };

    // Of more data than 253 bytes, what 253 need: twice any length need not fit.
    fn needed(&self, m: &Message) -> usize {
        9 + 2 * wire::front(m.data, 253).len()
    }

    fn put(&self, m: &Message, out: &mut [u8]) {
        if envelope::write_fault(m.data, self.needed(m), out).is_err() {
            return;
        }
        wire::put(out, 0, b':');
        hex::put_byte(out, 1, m.address);
        hex::put_byte(out, 3, m.function);
        hex::put_hex(out, 5, m.data);
        put_end(out, 5 + 2 * m.data.len(), lrc_of(m));
    }
}

// The envelope, over the front of out.
pub fn write_ascii(address: u8, function: u8, data: &[u8], out: &mut [u8]) -> Written
    ensures { WritesEnvelope ascii (message address function «data».now) out.old result out.new }
{
    let m = Message {
        address,
        function,
        data,
    };
    envelope::write(&InAscii, &m, out)
}
