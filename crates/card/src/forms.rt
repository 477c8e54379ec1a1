// What every form of the card is read and written by, from its length and the widths of its fields. What a form refuses of its own fields
// is its room's.
ghost use Rattle.std.specs.Prelude.{◌≡◌, ℕ, [], ◌∷◌, ◌++◌, get_or};
ghost use Rattle.std.proofs.lemmas.List.Edits.{sets};
ghost use Rattle.wire.specs.Refusal.{◌when◌, first};
ghost use Rattle.wire.specs.Writes.{Writes};
ghost use Rattle.bits.specs.Fields.{packed, unpacked};
ghost use Rattle.card.specs.Layout.{fields, Form, widths_of, Laid};
ghost use Rattle.card.specs.Reading.{spare_set, read_fields};
ghost use Rattle.card.specs.Writing.{too_small};

use crate::Card;
use crate::fields::{
    Fields, field_values, fields_of, first_bytes, judge_fields, other_length, too_small,
};
use wire::{Refusal, Written};

// A card's form: how many bytes, and the place of the spare bits among its fields.
pub trait CardForm {
    const SIZE: usize;

    const SPARE: u8;

    ghost SIZE: { ℕ };

    ghost SPARE: { ℕ };

    ghost form: { Form };

    fn widths() -> &'static [u8]
        ensures { result.now ≡ widths_of form };

    ghost laid: { Laid form SIZE SPARE };
}

// The field with k fields before it.
#[inline(always)]
pub fn field_at<F: CardForm>(bytes: &[u8], k: u8) -> u64
    ensures { result ≡ get_or (unpacked (widths_of F.form) bytes.now) k 0 }
{
    bits::field_at(bytes, F::widths(), k)
}

fn spare_set<F: CardForm>(bytes: &[u8]) -> bool
    ensures { result ≡ spare_set F.form bytes.now }
{
    field_at::<F>(bytes, F::SPARE) != 0
}

// The ten fields, where none of 50 to 54 refuses the bytes.
pub fn read_fields<F: CardForm>(bytes: &[u8]) -> Result<Fields, Refusal>
    ensures { result ≡ read_fields F.form bytes.now }
{
    if other_length(bytes, F::SIZE) {
        return Err(Refusal::OtherCardLength);
    }
    if spare_set::<F>(bytes) {
        return Err(Refusal::SpareSet);
    }
    let card = first_bytes(bytes);
    let f = fields_of(&card);
    judge_fields(f)?;
    Ok(f)
}

// Two words, and what of the form's bytes is left; a field that has no value is 0.
fn put_fields<F: CardForm>(card: Card, next: u64, out: &mut [u8])
    ensures { out.new ≡ sets out.old 0 (packed F.form.size (widths_of F.form) (fields card ++ (next ∷ []))) }
{
    let size = F::SIZE;
    let widths = F::widths();
    let values = field_values(card, next);
    bits::put_word(out, 0, bits::word_before(widths, &values, 64));
    bits::put_word(out, 8, bits::word_before(widths, &values, 128));
    let last = bits::word_before(widths, &values, 8 * size).to_be_bytes();
    wire::put_all(out, 16, wire::rest(&last, 24 - size));
}

// A card that its room has judged, with the field after the ten, where there is room for it.
pub fn write_fields<F: CardForm>(card: Card, next: u64, out: &mut [u8]) -> Written
    ensures { Writes (first (16 when too_small F.form.size out.old ∷ [])) (packed F.form.size (widths_of F.form) (fields card ++ (next ∷ []))) out.old result out.new }
{
    if too_small(out, F::SIZE) {
        return Err(Refusal::NoRoom);
    }
    put_fields::<F>(card, next, out);
    Ok(F::SIZE)
}
