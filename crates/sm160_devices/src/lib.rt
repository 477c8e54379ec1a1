// Writing the device list, a line a call: <r D="prefix" K="kind" S="serial number" /> and a line feed. What a line is, is in sm160_text.
#![tactic(auto)]

ghost use Rattle.std.specs.Prelude.{◌≡◌, ◌+◌, ◌≤◌, ◌<◌, ◌^◌, ◌-◌, length, SomeIff};
ghost use Rattle.std.proofs.lemmas.List.Edits.{sets};
ghost use Rattle.wire.specs.Answer.{judged};
ghost use Rattle.wire.specs.Refusal.{first};
ghost use Rattle.wire.specs.Writes.{Writes};
ghost use Rattle.sm160_text.specs.Layout.{bad_text, attribute_bytes, device_bytes};
ghost use Rattle.sm160_devices.specs.Writing.{bad_texts, no_room, device_rules};

use wire::{Refusal, Written};

// A quote or a line feed in a text.
fn bad_text(t: &[u8]) -> bool
    ensures { result ≡ bad_text t.now }
{
    sm160_text::text_end(t, 0) < t.len()
}

// The texts of D, K and S.
#[derive(Clone, Copy)]
struct Device<'a> {
    d: &'a [u8],
    k: &'a [u8],
    s: &'a [u8],
}

impl<'a> Device<'a> {
    fn bad_texts(&self) -> bool
        ensures { result ≡ bad_texts self.now.d.now self.now.k.now self.now.s.now }
    {
        bad_text(self.d) | bad_text(self.k) | bad_text(self.s)
    }

    // What a line leaves of the room, which is counted down, so that no sum passes 64 bits. It has 21 characters beside its texts.
    fn left(&self, room: usize) -> Option<usize>
        ensures { SomeIff result (21 + length self.now.d.now + length self.now.k.now + length self.now.s.now ≤ room) (room - 21 - length self.now.d.now - length self.now.k.now - length self.now.s.now) }
    {
        room.checked_sub(21)?
            .checked_sub(self.d.len())?
            .checked_sub(self.k.len())?
            .checked_sub(self.s.len())
    }

    fn no_room(&self, room: usize) -> bool
        ensures { result ≡ no_room self.now.d.now self.now.k.now self.now.s.now room }
    {
        self.left(room).is_none()
    }

    fn judge(&self, out: &[u8]) -> Result<(), Refusal>
        ensures { result ≡ judged tt (first (device_rules self.now.d.now self.now.k.now self.now.s.now out.now)) }
    {
        if self.bad_texts() {
            return Err(Refusal::BadQuote);
        }
        if self.no_room(out.len()) {
            return Err(Refusal::NoRoom);
        }
        Ok(())
    }

    // The line over the front of an output that has room for it; its length.
    fn put(&self, out: &mut [u8]) -> usize
        requires { length (device_bytes self.now.d.now self.now.k.now self.now.s.now) ≤ length out.old }
        ensures { (out.new ≡ sets out.old 0 (device_bytes self.now.d.now self.now.k.now self.now.s.now)) × (result ≡ length (device_bytes self.now.d.now self.now.k.now self.now.s.now)) }
    {
        wire::put_all(out, 0, b"<r");
        put_attribute(out, 2, b'D', self.d);
        let second = 7 + self.d.len();
        put_attribute(out, second, b'K', self.k);
        let third = second + 5 + self.k.len();
        put_attribute(out, third, b'S', self.s);
        let end = third + 5 + self.s.len();
        wire::put_all(out, end, b" />\n");
        end + 4
    }
}

// An attribute from a place on, with the blank before it.
fn put_attribute(out: &mut [u8], at: usize, letter: u8, text: &[u8])
    requires { at + (5 + length text.now) < 2 ^ 64 }
    ensures { out.new ≡ sets out.old at (attribute_bytes letter text.now) }
{
    let head = [b' ', letter, b'=', b'"'];
    wire::put_all(out, at, &head);
    wire::put_all(out, at + 4, text);
    wire::put(out, at + 4 + text.len(), b'"');
}

// A line of the device list, over the front of out: the texts of D, K and S, one by one, as a host has them.
pub fn write_device(d: &[u8], k: &[u8], s: &[u8], out: &mut [u8]) -> Written
    ensures { Writes (first (device_rules d.now k.now s.now out.old)) (device_bytes d.now k.now s.now) out.old result out.new }
{
    let device = Device { d, k, s };
    device.judge(out)?;
    Ok(device.put(out))
}
