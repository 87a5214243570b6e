// The hash of the vector file: it starts at 1 and takes one step for each byte.
ghost use Rattle.std.specs.Prelude.{◌<◌};

const MODULUS: u64 = 4_294_967_291;

#[derive(Clone, Copy)]
pub struct Hash {
    value: u64,
    ghost below: { value < 4_294_967_291 },
}

impl Hash {
    // The hash of nothing.
    pub fn new() -> Self {
        Hash { value: 1 }
    }

    pub fn value(self) -> u64 {
        self.value
    }

    fn step(self, value: u64) -> Self {
        Hash {
            value: (self.value * 257 + value % MODULUS + 1) % MODULUS,
        }
    }

    pub fn bytes(self, bytes: &[u8]) -> Self {
        bytes
            .iter()
            .fold(self, |hash, byte| hash.step(u64::from(*byte)))
    }

    // The four lowest bytes of each number, the lowest first.
    pub fn words(self, words: &[usize]) -> Self {
        words
            .iter()
            .fold(self, |hash, word| hash.bytes(&word.to_le_bytes()[..4]))
    }

    // Of each cost whether it is negative, then how far it is from 0, or from -1 where it is negative.
    pub fn costs(self, costs: &[i64]) -> Self {
        costs.iter().fold(self, |hash, cost| hash.cost(*cost))
    }

    fn cost(self, cost: i64) -> Self {
        if cost < 0 {
            self.step(1).step((!cost).cast_unsigned())
        } else {
            self.step(0).step(cost.cast_unsigned())
        }
    }
}
