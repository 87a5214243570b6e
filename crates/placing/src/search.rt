// The search for a label, layer by layer.
ghost use Rattle.std.specs.Prelude.{◌≡◌, true, false, ℕ, MatchResult};
ghost use Rattle.std.specs.Int.Bits.{bit_and};
ghost use Rattle.integers.specs.Words.{bit};
ghost use Rattle.placing.specs.Words.{Met, Ended};

use crate::seats::Seats;
use crate::words::lowest;

// The steps of a search: the label from which each went, and the word of those that it found.
// Kept: two arrays and no array of structs: a law of a trail speaks of both tables at every step, and of structs it would name a field each time.
#[derive(Drop)]
pub(crate) struct Steps {
    pub by: [u8; 64],
    pub words: [u64; 64],
}

impl Steps {
    // Room for a search. What stands in it before does not matter, so that one serves all searches, and is cleared once.
    pub(crate) fn new() -> Steps {
        Steps {
            by: [0; 64],
            words: [0; 64],
        }
    }
}

// The label that a search met, and after how many steps.
#[derive(Clone, Copy)]
pub(crate) struct Meeting {
    pub label: u8,
    pub count: usize,
}

impl<'a> Seats<'a> {
    // Goes from the labels of `start` layer by layer to one of `goals`, after no step if one of them is. Labels of `before` are passed over. Where none is met, the labels seen.
    pub(crate) fn search(
        &self,
        start: u64,
        before: u64,
        goals: u64,
        steps: &mut Steps,
    ) -> Result<Meeting, u64>
        requires { (l : ℕ) → bit start l ≡ true → bit before l ≡ false }
        ensures { MatchResult result (λ met. Met self.now.reach goals start before steps.new.by steps.new.words met.count met.label) (λ seen. Ended self.now.reach goals start before seen) }
    {
        let begun = start & goals;
        if begun == 0 {
            return self.layers(start, before, goals, steps);
        }
        let label = lowest(begun);
        Ok(Meeting { label, count: 0 })
    }

    // The same where none of `start` is a goal.
    fn layers(&self, start: u64, before: u64, goals: u64, steps: &mut Steps) -> Result<Meeting, u64>
        requires { ((l : ℕ) → bit start l ≡ true → bit before l ≡ false) × (bit_and start goals ≡ 0) }
        ensures { MatchResult result (λ met. Met self.now.reach goals start before steps.new.by steps.new.words met.count met.label) (λ seen. Ended self.now.reach goals start before seen) }
    {
        let mut seen = before | start;
        let mut layer = start;
        let mut next = 0u64;
        let mut count = 0;
        // Kept: `count` goes up by hand, as the loop goes by the labels of a word and ends within a layer.
        while layer != 0 {
            let l = lowest(layer);
            let from = usize::from(l);
            let new = (self.reach[from] | seen) ^ seen;
            steps.by[count] = l;
            steps.words[count] = new;
            count += 1;
            let met = new & goals;
            if met != 0 {
                let label = lowest(met);
                return Ok(Meeting { label, count });
            }
            seen |= new;
            let all = next | new;
            let left = layer & (layer - 1);
            if left == 0 {
                if all == 0 {
                    return Err(seen);
                }
                layer = all;
                next = 0;
            } else {
                layer = left;
                next = all;
            }
        }
        Err(seen)
    }
}
