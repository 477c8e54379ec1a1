// A case: its act, its numbers, and the byte string that its call reads.
use date::{DateTime, date_at};
use wire::{byte_at, front, le16_at, le32_at, le64_at, rest};

#[derive(Clone, Copy)]
pub struct Case<'a> {
    pub act: u8,
    // Eight bytes each.
    pub numbers: &'a [u8],
    pub bytes: &'a [u8],
}

impl<'a> Case<'a> {
    // From the number on that has k numbers before it. One that is not there is 0.
    fn from_number(self, k: u8) -> &'a [u8] {
        rest(self.numbers, 8 * k as usize)
    }

    pub fn byte(self, k: u8) -> u8 {
        byte_at(self.from_number(k), 0)
    }

    pub fn flag(self, k: u8) -> bool {
        self.byte(k) != 0
    }

    pub fn short(self, k: u8) -> u16 {
        le16_at(self.from_number(k), 0)
    }

    pub fn word(self, k: u8) -> u32 {
        le32_at(self.from_number(k), 0)
    }

    pub fn long(self, k: u8) -> u64 {
        le64_at(self.from_number(k), 0)
    }

    // A number that counts bytes, places or the like.
    pub fn size(self, k: u8) -> usize {
        self.long(k) as usize
    }

    pub fn date(self, k: u8) -> DateTime {
        date_at(self.from_number(k), 0)
    }

    // Two byte strings that are given as one: the number says where it is cut.
    pub fn cut_at(self, k: u8) -> (&'a [u8], &'a [u8]) {
        let n = self.size(k);
        (front(self.bytes, n), rest(self.bytes, n))
    }
}
