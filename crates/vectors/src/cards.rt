// Acts 50, 51, 53 to 56 and 59: the reading card in both forms, its moves, and the numbers of archives.
use crate::case::Case;
use crate::say::{Line, Said};
use archive::{source_from, type_from};
use archive_card::{read_archive_card, to_archive_card, to_card, write_archive_card};
use card::{Card, read_card, write_card};
use reading::{bits, kind_from, kind_of, of_bits};
use wire::Written;

fn fields(line: &mut Line, c: Card) -> Said {
    line.words(&[0, c.address as u64, c.channel as u64])?;
    line.date(c.time)?;
    line.words(&[u8::from(kind_of(c.value)) as u64, bits(c.value)])
}

// No From<Case>: the case is a card by its act alone.
fn card_from(case: Case) -> Card {
    Card {
        address: case.word(0),
        channel: case.byte(1),
        time: case.date(2),
        value: of_bits(kind_from(case.byte(3)), case.long(4)),
    }
}

fn read(line: &mut Line, bytes: &[u8]) -> Said {
    fields(line, read_card(bytes)?)?;
    line.bytes(b"")
}

// The archive kind is the last word, which a card of 17 bytes has not.
fn read_archive(line: &mut Line, bytes: &[u8]) -> Said {
    let a = read_archive_card(bytes)?;
    fields(line, a.card)?;
    line.numbers(&[u8::from(a.source) as u64])
}

fn write(case: Case, out: &mut [u8]) -> Written {
    match case.act {
        51 => write_card(card_from(case), out),
        54 => write_archive_card(card_from(case), case.byte(5), out),
        55 => to_archive_card(case.bytes, out),
        _ => to_card(case.bytes, out),
    }
}

// Act 59: the number of a source and that of an archive kind, there and back.
fn archive_numbers(line: &mut Line, source: u8, kind: u16) -> Said {
    let s = u8::from(source_from(source));
    let k = u8::from(type_from(kind));
    line.numbers(&[0, s as u64, k as u64])
}

pub fn answer(line: &mut Line, case: Case, out: &mut [u8]) -> Said {
    match case.act {
        50 => read(line, case.bytes),
        53 => read_archive(line, case.bytes),
        59 => archive_numbers(line, case.byte(0), case.short(1)),
        _ => {
            let w = write(case, out);
            line.written(w, out)
        }
    }
}
