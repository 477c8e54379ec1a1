// The card that says which archive it came from: 18 bytes, the fields of every card, then the archive kind and spare bits; and cards moved
// from one form to the other.
#![tactic(auto)]

ghost use Rattle.std.specs.Prelude.{◌≡◌, [], ◌∷◌};
ghost use Rattle.archive_card.specs.Laid.{archive_laid};
ghost use Rattle.wire.specs.Answer.{judged};
ghost use Rattle.wire.specs.Refusal.{first};
ghost use Rattle.wire.specs.Writes.{Writes};
ghost use Rattle.archive_card.specs.Layout.{bad_archive, own_rules, archive_form, archive_bytes, archive_number, archive_card_from};
ghost use Rattle.archive_card.specs.Reading.{read_archive_card, archive_write_rules};
ghost use Rattle.archive_card.specs.Moving.{new_bytes, new_rules, old_bytes, not_current, back_rules, old_rules};

use archive::Source;
use card::fields::Fields;
use card::forms::CardForm;
use card::{Card, fields, forms};
use wire::{Refusal, Written};

// A form's own layout, written out: the widths of every form are its first ten, and a constant cannot be made of another's.
static WIDTHS: [u8; 12] = [27, 5, 7, 4, 5, 5, 6, 6, 2, 64, 3, 10];

#[derive(Clone, Copy, Debug, PartialEq, Eq)]
pub struct ArchiveCard {
    pub card: Card,
    pub source: Source,
}

impl CardForm for ArchiveCard {
    const SIZE: usize = 18;

    const SPARE: u8 = 11;

    ghost SIZE = { 18 };

    ghost SPARE = { 11 };

    ghost form = { archive_form };

    fn widths() -> &'static [u8] {
        &WIDTHS
    }

    ghost laid = { archive_laid };
}

fn archive_number(bytes: &[u8]) -> u8
    ensures { result ≡ archive_number bytes.now }
{
    forms::field_at::<ArchiveCard>(bytes, 10) as u8
}

fn bad_archive(kind: u8) -> bool
    ensures { result ≡ bad_archive kind }
{
    4 < kind
}

fn judge_archive(kind: u8) -> Result<(), Refusal>
    ensures { result ≡ judged tt (first (own_rules (kind ∷ []))) }
{
    if bad_archive(kind) {
        return Err(Refusal::BadArchiveKind);
    }
    Ok(())
}

// Of fields and a kind that were judged.
fn archive_card_from(f: Fields, kind: u8) -> ArchiveCard
    ensures { result ≡ archive_card_from f kind }
{
    ArchiveCard {
        card: fields::card_from(f),
        source: archive::source_from(kind),
    }
}

pub fn read_archive_card(bytes: &[u8]) -> Result<ArchiveCard, Refusal>
    ensures { result ≡ read_archive_card bytes.now }
{
    let f = forms::read_fields::<ArchiveCard>(bytes)?;
    let kind = archive_number(bytes);
    judge_archive(kind)?;
    Ok(archive_card_from(f, kind))
}

// The archive kind by its number, 0 for a current reading: 56 refuses numbers above 4, which no `Source` has.
pub fn write_archive_card(card: Card, kind: u8, out: &mut [u8]) -> Written
    ensures { Writes (first (archive_write_rules card kind out.old)) (archive_bytes card kind) out.old result out.new }
{
    fields::judge_card(card)?;
    judge_archive(kind)?;
    forms::write_fields::<ArchiveCard>(card, kind as u64, out)
}

// Moves a card of 17 bytes to the new form, as a current reading: it and a byte 0. The length is asked here too, and so in `to_card`: bytes
// whose number the compiler knows are copied at once, and others in a loop.
pub fn to_archive_card(bytes: &[u8], out: &mut [u8]) -> Written
    ensures { Writes (first (new_rules bytes.now out.old)) (new_bytes bytes.now) out.old result out.new }
{
    if fields::other_length(bytes, 17) {
        return Err(Refusal::OtherCardLength);
    }
    card::fault_of(bytes)?;
    if fields::too_small(out, 18) {
        return Err(Refusal::NoRoom);
    }
    let card = fields::first_bytes(bytes);
    wire::put_all(out, 0, &card);
    wire::put(out, 17, 0);
    Ok(18)
}

fn not_current(bytes: &[u8]) -> bool
    ensures { result ≡ not_current (archive_number bytes.now) }
{
    archive_number(bytes) != 0
}

// Those of the rules that come after the reader's.
fn judge_move(bytes: &[u8], out: &[u8]) -> Result<(), Refusal>
    ensures { result ≡ judged tt (first (back_rules bytes.now out.now)) }
{
    if not_current(bytes) {
        return Err(Refusal::NotCurrent);
    }
    if fields::too_small(out, 17) {
        return Err(Refusal::NoRoom);
    }
    Ok(())
}

// The first rule that a new card is not moved back by.
fn judge_back(bytes: &[u8], out: &[u8]) -> Result<(), Refusal>
    ensures { result ≡ judged tt (first (old_rules bytes.now out.now)) }
{
    read_archive_card(bytes)?;
    judge_move(bytes, out)
}

// Moves a new card of a current reading back: its first 17 bytes.
pub fn to_card(bytes: &[u8], out: &mut [u8]) -> Written
    ensures { Writes (first (old_rules bytes.now out.old)) (old_bytes bytes.now) out.old result out.new }
{
    if fields::other_length(bytes, 18) {
        return Err(Refusal::OtherCardLength);
    }
    judge_back(bytes, out)?;
    let card = fields::first_bytes(bytes);
    wire::put_all(out, 0, &card);
    Ok(17)
}
