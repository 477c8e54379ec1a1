// Act 24: the summary of an archive reply's present values. Floats are told by their bits.
ghost use Rattle.std.specs.Prelude.{ℕ, ◌<◌, length, get_or, ⊤};
ghost use Rattle.consumption.specs.Numbers.{Number};

use crate::case::Case;
use crate::say::{Line, Said};
use consumption::{Summary, read_f32, read_f64, read_u32, read_u64};
use reading::{Kind, kind_from};
use wire::front;

// A value that is told by its bits: which are, how many bytes they fill, and they.
trait Told: Copy {
    ghost IsTold: { Self → Type 0 };

    const WIDTH: usize;

    fn bits(self) -> u64
        requires { IsTold self };
}

impl Told for f32 {
    ghost IsTold = { Number };

    const WIDTH: usize = 4;

    fn bits(self) -> u64 {
        u64::from(self.to_bits())
    }
}

impl Told for f64 {
    ghost IsTold = { Number };

    const WIDTH: usize = 8;

    fn bits(self) -> u64 {
        self.to_bits()
    }
}

impl Told for u32 {
    ghost IsTold = { λ _. ⊤ };

    const WIDTH: usize = 4;

    fn bits(self) -> u64 {
        self as u64
    }
}

impl Told for u64 {
    ghost IsTold = { λ _. ⊤ };

    const WIDTH: usize = 8;

    fn bits(self) -> u64 {
        self
    }
}

fn tell<V: Told, S>(line: &mut Line, s: &Summary<V, S>, steps: &[V]) -> Said
    requires ends { V.IsTold s.now.first × V.IsTold s.now.last }
    requires each { (i : ℕ) → i < length steps.now → V.IsTold (get_or steps.now i s.now.first) }
{
    line.words(&[
        0,
        s.first.bits(),
        s.first_place as u64,
        s.last.bits(),
        s.last_place as u64,
        s.present as u64,
    ])?;
    for step in steps {
        line.hexadecimal(front(&step.bits().to_le_bytes(), V::WIDTH))?;
    }
    line.end()
}

pub fn answer(line: &mut Line, case: Case) -> Said {
    let body = case.bytes;
    // Four arms: each summary is of a type of its own, and `ends` and `each` of `tell` come from what its own reader promises.
    match kind_from(case.byte(0)) {
        Kind::F32 => {
            let s = read_f32(body)?;
            tell(line, &s, &s.steps)
        }
        Kind::F64 => {
            let s = read_f64(body)?;
            tell(line, &s, &s.steps)
        }
        Kind::U32 => {
            let s = read_u32(body)?;
            tell(line, &s, &s.steps)
        }
        Kind::U64 => {
            let s = read_u64(body)?;
            tell(line, &s, &s.steps)
        }
    }
}
