// The reading card: 17 bytes, most significant bit first. The widths of its fields are its layout.
#![tactic(auto)]

pub mod fields;
pub mod forms;

ghost use Rattle.std.specs.Prelude.{◌≡◌};
ghost use Rattle.card.specs.Laid.{card_laid};
ghost use Rattle.wire.specs.Answer.{judged};
ghost use Rattle.wire.specs.Refusal.{first};
ghost use Rattle.wire.specs.Writes.{Writes};
ghost use Rattle.card.specs.Layout.{card_form, card_bytes};
ghost use Rattle.card.specs.Reading.{read_rules, read_card};
ghost use Rattle.card.specs.Writing.{write_rules};

use date::DateTime;
use forms::CardForm;
use reading::Reading;
use wire::{Refusal, Written};

static WIDTHS: [u8; 11] = [27, 5, 7, 4, 5, 5, 6, 6, 2, 64, 5];

#[derive(Clone, Copy, Debug, PartialEq, Eq)]
pub struct Card {
    pub address: u32,
    pub channel: u8,
    pub time: DateTime,
    pub value: Reading,
}

impl CardForm for Card {
    const SIZE: usize = 17;

    const SPARE: u8 = 10;

    ghost SIZE = { 17 };

    ghost SPARE = { 10 };

    ghost form = { card_form };

    fn widths() -> &'static [u8] {
        &WIDTHS
    }

    ghost laid = { card_laid };
}

pub fn read_card(bytes: &[u8]) -> Result<Card, Refusal>
    ensures { result ≡ read_card bytes.now }
{
    let f = forms::read_fields::<Card>(bytes)?;
    Ok(fields::card_from(f))
}

// The first rule that holds.
pub fn fault_of(bytes: &[u8]) -> Result<(), Refusal>
    ensures { result ≡ judged tt (first (read_rules bytes.now)) }
{
    read_card(bytes)?;
    Ok(())
}

// The spare bits, which are the field after the ten, are 0.
pub fn write_card(card: Card, out: &mut [u8]) -> Written
    ensures { Writes (first (write_rules card out.old)) (card_bytes card) out.old result out.new }
{
    fields::judge_card(card)?;
    forms::write_fields::<Card>(card, 0, out)
}
