// What every form of the card shares: its ten fields, read, judged and written. A form's length and its own fields are its room's.
ghost use Rattle.std.specs.Prelude.{◌≡◌, [], ◌∷◌, ◌++◌, ◌<◌, get_or};
ghost use Rattle.wire.specs.Answer.{judged};
ghost use Rattle.wire.specs.Numbers.{field};
ghost use Rattle.wire.specs.Refusal.{first};
ghost use Rattle.card.specs.Layout.{field_widths, fields, field_of, address_of, channel_number, time_of, value_kind, value_bits, fields_in, card_from};
ghost use Rattle.card.specs.Reading.{other_length, bad_address, bad_time, upper_half_set, field_rules};
ghost use Rattle.card.specs.Writing.{bad_channel, card_rules, too_small};

use crate::Card;
use date::DateTime;
use reading::Kind;
use wire::Refusal;

static FIELDS: [u8; 10] = [27, 5, 7, 4, 5, 5, 6, 6, 2, 64];

// The ten fields as they stand on a card: the channel by its number, the value by its kind and bits.
#[derive(Clone, Copy, Debug, PartialEq, Eq)]
pub struct Fields {
    pub address: u32,
    pub channel: u8,
    pub time: DateTime,
    pub kind: Kind,
    pub bits: u64,
}

// The field with k fields before it.
#[inline(always)]
fn field(bytes: &[u8], k: u8) -> u64
    ensures { result ≡ field_of k bytes.now }
{
    bits::field_at(bytes, &FIELDS, k)
}

// One of at most eight bits.
#[inline(always)]
fn byte_field(bytes: &[u8], k: u8) -> u8
    requires { get_or field_widths k 0 < 9 }
    ensures { result ≡ field_of k bytes.now }
{
    field(bytes, k) as u8
}

fn address_of(bytes: &[u8]) -> u32
    ensures { result ≡ address_of bytes.now }
{
    field(bytes, 0) as u32
}

fn channel_number(bytes: &[u8]) -> u8
    ensures { result ≡ channel_number bytes.now }
{
    byte_field(bytes, 1) + 1
}

fn time_of(bytes: &[u8]) -> DateTime
    ensures { result ≡ time_of bytes.now }
{
    DateTime {
        year: byte_field(bytes, 2),
        month: byte_field(bytes, 3),
        day: byte_field(bytes, 4),
        hour: byte_field(bytes, 5),
        minute: byte_field(bytes, 6),
        second: byte_field(bytes, 7),
    }
}

fn value_kind(bytes: &[u8]) -> Kind
    ensures { result ≡ value_kind bytes.now }
{
    reading::kind_from(byte_field(bytes, 8))
}

fn value_bits(bytes: &[u8]) -> u64
    ensures { result ≡ value_bits bytes.now }
{
    field(bytes, 9)
}

// The first 17 bytes, in which they lie; what is missing is 0.
pub fn first_bytes(bytes: &[u8]) -> [u8; 17]
    ensures { result ≡ field bytes.now 0 17 }
{
    let mut card = [0u8; 17];
    wire::put_all(&mut card, 0, bytes);
    card
}

pub fn fields_of(card: &[u8; 17]) -> Fields
    ensures { result ≡ fields_in card.now }
{
    let time = time_of(card);
    let kind = value_kind(card);
    Fields {
        address: address_of(card),
        channel: channel_number(card),
        time,
        kind,
        bits: value_bits(card),
    }
}

fn bad_address(address: u32) -> bool
    ensures { result ≡ bad_address address }
{
    (address == 0) | (99_999_999 < address)
}

fn bad_time(time: DateTime) -> bool
    ensures { result ≡ bad_time time }
{
    !date::is_date(time)
}

fn upper_half_set(kind: Kind, bits: u64) -> bool
    ensures { result ≡ upper_half_set kind bits }
{
    (reading::width_of(kind) == 4) & (bits / 0x1_0000_0000 != 0)
}

// 50, of a form of so many bytes.
pub fn other_length(bytes: &[u8], size: usize) -> bool
    ensures { result ≡ other_length size bytes.now }
{
    bytes.len() != size
}

// The first rule that the ten fields are refused by. Address and time are judged as in `judge_card`, but before another third rule.
pub fn judge_fields(f: Fields) -> Result<(), Refusal>
    ensures { result ≡ judged tt (first (field_rules f)) }
{
    let time = f.time;
    let kind = f.kind;
    if bad_address(f.address) {
        return Err(Refusal::BadCardAddress);
    }
    if bad_time(time) {
        return Err(Refusal::BadTime);
    }
    if upper_half_set(kind, f.bits) {
        return Err(Refusal::UpperHalfSet);
    }
    Ok(())
}

// Of fields that were judged: a From would be asked for any.
pub fn card_from(f: Fields) -> Card
    ensures { result ≡ card_from f }
{
    let time = f.time;
    let kind = f.kind;
    let value = reading::of_bits(kind, f.bits);
    Card {
        address: f.address,
        channel: f.channel,
        time,
        value,
    }
}

fn bad_channel(channel: u8) -> bool
    ensures { result ≡ bad_channel channel }
{
    (channel == 0) | (32 < channel)
}

// The first rule that a card to be written is refused by.
pub fn judge_card(card: Card) -> Result<(), Refusal>
    ensures { result ≡ judged tt (first (card_rules card)) }
{
    let time = card.time;
    if bad_address(card.address) {
        return Err(Refusal::BadCardAddress);
    }
    if bad_time(time) {
        return Err(Refusal::BadTime);
    }
    if bad_channel(card.channel) {
        return Err(Refusal::BadChannel);
    }
    Ok(())
}

// 16, of a form of so many bytes.
pub fn too_small(out: &[u8], size: usize) -> bool
    ensures { result ≡ too_small size out.now }
{
    out.len() < size
}

// The ten fields of a card, in their order, and what comes after them.
pub fn field_values(card: Card, next: u64) -> [u64; 11]
    ensures { result ≡ fields card ++ (next ∷ []) }
{
    let time = card.time;
    let value = card.value;
    [
        card.address as u64,
        wire::minus(card.channel as usize, 1) as u64,
        time.year as u64,
        time.month as u64,
        time.day as u64,
        time.hour as u64,
        time.minute as u64,
        time.second as u64,
        u8::from(reading::kind_of(value)) as u64,
        reading::bits(value),
        next,
    ]
}
