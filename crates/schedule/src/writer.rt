// Writing records one after another.

// The kinds of records, by their numbers.
// Kept: beside `Kind` of `messages`, which is its own: it is made from a number and says what a record does, and this one is written as its number.
#[derive(Clone, Copy)]
pub(crate) enum Kind {
    ToEdge = 1,
    FromEdge = 2,
    ToLabel = 3,
    FromLabel = 4,
    Round = 5,
}

impl From<Kind> for u8 {
    ghost use Rattle.std.specs.Prelude.{◌≡◌};
    ghost use Rattle.schedule.specs.Writing.{kind_number};

    ghost from_gives = { λ kind n. n ≡ kind_number kind };

    fn from(kind: Kind) -> u8 {
        // Kept: `as` is how Rust reads a variant's number.
        kind as u8
    }
}

// A buffer, of which the bytes ahead of `at` are written.
// Kept: the room that is asked for is the piece's own number of records, and so no fact of the type.
#[derive(Drop)]
pub(crate) struct Writer<'a> {
    pub(crate) out: &'a mut [u8],
    pub(crate) at: usize,
}

impl Writer<'_> {
    ghost use Rattle.std.specs.Prelude.{[], ◌∷◌};
    ghost use Rattle.schedule.specs.Sweep.{entry};
    ghost use Rattle.schedule.specs.Writing.{Wrote, Room, kind_number};

    // Writes one record, of five bytes.
    #[tactic(auto, using(crate::proofs::NumberLaws::record_bytes, crate::proofs::WritingLaws::five), unfolding(crate::specs::Sweep::bytes))]
    pub(crate) fn put(&mut self, kind: Kind, node: u8, index: u16, share: u8)
        requires { Room self.old 1 }
        ensures { Wrote self.old (entry (kind_number kind) node index share ∷ []) self.new }
    {
        let [low, high] = index.to_le_bytes();
        let at = self.at;
        // Kept: five stores. With `copy_from_slice` of an array of them a sweep takes twice as long, past 1.5 times the Rust program's time, for the array is read back before it is stored.
        self.out[at] = u8::from(kind);
        self.out[at + 1] = node;
        self.out[at + 2] = low;
        self.out[at + 3] = high;
        self.out[at + 4] = share;
        self.at = at + 5;
    }
}
