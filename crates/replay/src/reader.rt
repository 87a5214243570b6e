// The vector file, read from front to back.
use crate::hash::Hash;
use arrayvec::ArrayVec;

// What the file does not hold is read as 0, so that a call that is cut off is compared as far as it goes.
#[derive(Clone, Copy)]
pub struct Reader<'a> {
    // what is left; none once more was read than the file holds
    rest: Option<&'a [u8]>,
}

impl<'a> Reader<'a> {
    pub fn new(file: &'a [u8]) -> Self {
        Reader { rest: Some(file) }
    }

    // None once more was read than the file holds.
    pub fn held(&self) -> Option<()> {
        self.rest.map(|_| ())
    }

    pub fn array<const N: usize>(&mut self) -> [u8; N] {
        let rest = self.rest.unwrap_or(&[]);
        let mut bytes = [0; N];
        for (byte, given) in bytes.iter_mut().zip(rest) {
            *byte = *given;
        }
        self.rest = rest.get(N..);
        bytes
    }

    pub fn byte(&mut self) -> u8 {
        u8::from_le_bytes(self.array())
    }

    pub fn word(&mut self) -> u32 {
        u32::from_le_bytes(self.array())
    }

    pub fn number(&mut self) -> u64 {
        u64::from_le_bytes(self.array())
    }

    // A word that is a length, a place or the number of an edge.
    pub fn size(&mut self) -> usize {
        // Kept: four bytes fit a usize, which has 64 bits; `From` is for two, and `try_from` would add a case that cannot happen.
        self.word() as usize
    }

    // A field of bytes: its length, and then that many.
    pub fn field(&mut self) -> Option<&'a [u8]> {
        let length = self.size();
        let rest = self.rest?;
        self.rest = rest.get(length..);
        rest.get(..length)
    }

    pub fn answers(&mut self) -> Answers {
        let count = self.byte();
        let mut numbers = ArrayVec::new();
        for _ in 0..count {
            numbers.push(self.number());
        }
        Answers {
            numbers,
            output: self.number(),
            state: self.number(),
        }
    }
}

// What the file has of a call: the numbers that it answers, the hash of its output, and that of the buffers after it.
#[derive(Drop)]
pub struct Answers {
    numbers: ArrayVec<u64, 255>,
    output: u64,
    state: u64,
}

impl Answers {
    pub fn numbers_are(&self, numbers: &[u64]) -> bool {
        self.numbers.as_slice() == numbers
    }

    pub fn are(&self, numbers: &[u64], output: Hash) -> bool {
        self.numbers_are(numbers) && self.output == output.value()
    }

    // The same of a call with no output, and of the buffers after it.
    pub fn leave(&self, numbers: &[u64], state: Hash) -> bool {
        self.are(numbers, Hash::new()) && self.state == state.value()
    }
}
