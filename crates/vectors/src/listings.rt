// Acts 52, 57 and 58: the line of a card or of a refusal, and the lines of many cards.
use crate::case::Case;
use crate::say::{Line, Said};
use card_lines::{entry_of, put_lines};
use card_text::{Form, put_line};
use wire::Written;

// The line of a refusal and, for 0, of a card.
fn write_line(form: Form, n: u8, card: &[u8], out: &mut [u8]) -> Written {
    match n {
        0 => put_line(entry_of(form, card), out),
        _ => put_line(Err(n), out),
    }
}

// Any number is a form, as a case has it.
fn form_from(number: u8) -> Form {
    match number {
        0 => Form::Card,
        _ => Form::ArchiveCard,
    }
}

pub fn answer(line: &mut Line, case: Case, out: &mut [u8]) -> Said {
    let n = case.byte(0);
    let w = match case.act {
        52 => write_line(Form::Card, n, case.bytes, out),
        57 => write_line(Form::ArchiveCard, n, case.bytes, out),
        _ => put_lines(form_from(n), case.bytes, out),
    };
    line.written(w, out)
}
