// The numbers of a payload, little-endian and taken in order. Past its end stand zeros.
use lent::least;

// What is left of a payload.
#[derive(Drop)]
pub(crate) struct Payload<'a> {
    pub rest: &'a [u8],
}

impl Payload<'_> {
    // The number of the next bytes, so many and at most four.
    pub(crate) fn number(&mut self, width: usize) -> u32 {
        let number = lent::number(self.rest, 0, width);
        self.rest = &self.rest[least(width, self.rest)..];
        number
    }

    // The numbers of the next byte, and of the next two, four and eight; four bytes are also a size. The remainders show that a cast fits.
    pub(crate) fn byte(&mut self) -> u8 {
        (self.number(1) % 256) as u8
    }

    pub(crate) fn half(&mut self) -> u16 {
        (self.number(2) % 65536) as u16
    }

    pub(crate) fn word(&mut self) -> u32 {
        self.number(4)
    }

    pub(crate) fn size(&mut self) -> usize {
        self.number(4) as usize
    }

    pub(crate) fn long(&mut self) -> u64 {
        self.word() as u64 + 4294967296 * (self.word() as u64)
    }
}
