// The card lister's text: the header, and the line of a card of either form or of a refusal. What each says is in specs/.
#![tactic(auto)]

ghost use Rattle.std.specs.Prelude.{◌≡◌, ◌+◌, ◌≤◌, ◌<◌, length, [], ◌∷◌, ◌++◌};
ghost use Rattle.std.proofs.lemmas.List.Edits.{sets};
ghost use Rattle.wire.specs.Refusal.{first};
ghost use Rattle.wire.specs.Writes.{Writes};
ghost use Rattle.wire.specs.Digits.{ascii};
ghost use Rattle.card_text.specs.Text.{numeral, Stored};
ghost use Rattle.card_text.specs.Line.{plain_width, header, time_text, card_fields, archive_line, refused_line, line_of, too_small, room_rules};

use archive_card::ArchiveCard;
use card::Card;
use date::DateTime;
use wire::{Refusal, Written};

// The forms of the card: of 17 bytes, and of 18, which says the archive.
#[derive(Clone, Copy, Debug, PartialEq, Eq)]
pub enum Form {
    Card,
    ArchiveCard,
}

// A card of either form.
#[derive(Clone, Copy, Debug, PartialEq, Eq)]
pub enum AnyCard {
    Card(Card),
    ArchiveCard(ArchiveCard),
}

// What a line is of: a card, or the number that it is refused with. Every number has a line, as `put_line` promises, and not a Refusal's alone.
pub type Entry = Result<AnyCard, u8>;

// v with w digits in a base.
fn put_number(out: &mut [u8], at: usize, base: u64, w: usize, v: u64)
    requires { (at < 256) × (0 < base) × (w ≤ 16) }
    ensures { out.new ≡ sets out.old at (numeral base w v) }
{
    let mut left = v;
    for i in (0..w).rev() {
        wire::put(out, at + i, wire::digit(left % base));
        left /= base;
    }
}

// And what ends it; the answer is the place after that, where the next begins. A struct that kept the lent bytes with the place would need in each
// contract that they stay the same ones.
fn put_field(out: &mut [u8], at: usize, base: u64, w: usize, v: u64, end: u8) -> usize
    requires { (at < 256) × (0 < base) × (w ≤ 16) }
    ensures { Stored out.old at (numeral base w v ++ (end ∷ [])) out.new result × (result ≤ at + 17) }
{
    put_number(out, at, base, w, v);
    wire::put(out, at + w, end);
    at + w + 1
}

fn plain_width(n: u8) -> usize
    ensures { (result ≡ plain_width n) × (result ≤ 3) }
{
    if n < 10 {
        return 1;
    }
    if n < 100 {
        return 2;
    }
    3
}

fn put_time(out: &mut [u8], at: usize, time: DateTime) -> usize
    requires { at < 64 }
    ensures { Stored out.old at (time_text time ++ ascii ";") out.new result × (result ≤ at + 102) }
{
    let month = put_field(out, at, 10, 4, 2000 + time.year as u64, b'-');
    let day = put_field(out, month, 10, 2, time.month as u64, b'-');
    let hour = put_field(out, day, 10, 2, time.day as u64, b' ');
    let minute = put_field(out, hour, 10, 2, time.hour as u64, b':');
    let second = put_field(out, minute, 10, 2, time.minute as u64, b':');
    put_field(out, second, 10, 2, time.second as u64, b';')
}

// The fields that both forms have, and what ends them.
fn put_card(out: &mut [u8; 64], card: Card, end: u8) -> usize
    ensures { Stored out.old 0 (card_fields card ++ (end ∷ [])) out.new result }
{
    let time = card.time;
    let value = card.value;
    let channel = put_field(out, 0, 10, 8, card.address as u64, b';');
    let start = put_field(
        out,
        channel,
        10,
        plain_width(card.channel),
        card.channel as u64,
        b';',
    );
    let kind = put_time(out, start, time);
    let bits = put_field(
        out,
        kind,
        10,
        1,
        u8::from(reading::kind_of(value)) as u64,
        b';',
    );
    put_field(out, bits, 16, 16, reading::bits(value), end)
}

fn put_archive_card(out: &mut [u8; 64], a: ArchiveCard) -> usize
    ensures { Stored out.old 0 (archive_line a) out.new result }
{
    let card = a.card;
    let source = a.source;
    let archive = put_card(out, card, b';');
    put_field(out, archive, 10, 1, u8::from(source) as u64, b'\n')
}

fn put_refused(out: &mut [u8; 64], n: u8) -> usize
    ensures { Stored out.old 0 (refused_line n) out.new result }
{
    wire::put_all(out, 0, b"refused ");
    put_field(out, 8, 10, plain_width(n), n as u64, b'\n')
}

// The line over the front; the answer is its length.
pub fn make_line(out: &mut [u8; 64], entry: Entry) -> usize
    ensures { Stored out.old 0 (line_of «entry») out.new result }
{
    match entry {
        Ok(AnyCard::Card(card)) => put_card(out, card, b'\n'),
        Ok(AnyCard::ArchiveCard(a)) => put_archive_card(out, a),
        Err(n) => put_refused(out, n),
    }
}

// How long the line is.
pub fn line_length(entry: Entry) -> usize
    ensures { result ≡ length (line_of «entry») }
{
    match entry {
        Ok(AnyCard::Card(card)) => 49 + plain_width(card.channel),
        Ok(AnyCard::ArchiveCard(a)) => 51 + plain_width(a.card.channel),
        Err(n) => 9 + plain_width(n),
    }
}

fn too_small(text: &[u8], out: &[u8]) -> bool
    ensures { result ≡ too_small text.now out.now }
{
    out.len() < text.len()
}

fn put_text(text: &[u8], out: &mut [u8]) -> Written
    ensures { Writes (first (room_rules text.now out.old)) text.now out.old result out.new }
{
    if too_small(text, out) {
        return Err(Refusal::NoRoom);
    }
    wire::put_all(out, 0, text);
    Ok(text.len())
}

pub fn put_header(form: Form, out: &mut [u8]) -> Written
    ensures { Writes (first (room_rules (header form) out.old)) (header form) out.old result out.new }
{
    match form {
        Form::Card => put_text(b"address;channel;time;kind;bits\n", out),
        Form::ArchiveCard => put_text(b"address;channel;time;kind;bits;archive\n", out),
    }
}

pub fn put_line(entry: Entry, out: &mut [u8]) -> Written
    ensures { Writes (first (room_rules (line_of «entry») out.old)) (line_of «entry») out.old result out.new }
{
    let mut text = [0u8; 64];
    let n = make_line(&mut text, entry);
    put_text(wire::front(&text, n), out)
}
