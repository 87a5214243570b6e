// Another node takes a label that may not stay free.
ghost use Rattle.std.specs.Prelude.{◌≡◌, true, false, ℕ, ◌≤◌, ◌<◌, ◌^◌, IfOk, IfErr, set};
ghost use Rattle.integers.specs.Words.{bit};
ghost use Rattle.placing.specs.Words.{entry, Aimed, Rooted, Below, Out, Passed, Spent};

use crate::lowering::Terms;
use crate::search::Steps;
use crate::seats::Seats;
use crate::words::{bit_of, has, with_label};

// Whether a label may not stay free: it is no 255, and none of `idle`.
pub(crate) fn must_stay(idle: u64, label: u8) -> bool
    ensures stays { result ≡ true → (label < 64) × (bit idle label ≡ false) }
    ensures leaves { result ≡ false → label < 64 → bit idle label ≡ true }
{
    label < 64 && !has(idle, label)
}

impl<'a> Seats<'a> {
    // Node `x` leaves its label for another, or from 255 for one, where a search from there meets one of `goals`; else it stays, and the answer is the labels seen.
    fn reseat(&mut self, x: usize, goals: u64, before: u64, steps: &mut Steps) -> Result<(), u64>
        requires { (x < 64) × (64 ≤ entry self.old.taken x → entry self.old.taken x ≡ 255) × Aimed self.old.nodes.now.own self.old.taken goals before }
        ensures same { self.new.nodes.now ≡ self.old.nodes.now }
        ensures placed { IfOk result (λ _. (met : ℕ) × (bit goals met ≡ true) × Rooted self.old.nodes.now.own (set self.old.taken x 255) (entry self.old.nodes.now.sets x) before x met self.new.taken) }
        ensures barren { IfErr result (λ seen. (self.new.taken ≡ self.old.taken) × Passed self.old.nodes.now.sets self.old.taken goals before x seen) }
    {
        let label = self.taken[x];
        let before = with_label(before, label);
        self.leave(x);
        let start = (self.nodes.sets[x] | before) ^ before;
        if let Err(seen) = self.chain(start, before, goals, x, steps) {
            if label < 64 {
                self.give(x, label);
            }
            return Err(seen);
        }
        Ok(())
    }

    // Some node above `u` that has 255 or a label of `idle` is to leave it, so that in the end one takes the label that is owed; else no node moves, and the answer is the labels seen.
    pub(crate) fn fill(
        &mut self,
        u: usize,
        owed: u8,
        terms: &Terms,
        steps: &mut Steps,
    ) -> Result<(), u64>
        requires { (u < self.old.nodes.now.count) × (owed < 64) × (bit terms.now.idle owed ≡ false)
            × Out self.old.nodes.now.count self.old.nodes.now.own terms.now.idle owed u self.old.taken × Below terms.now.closed u self.old.taken }
        ensures same { self.new.nodes.now ≡ self.old.nodes.now }
        ensures placed { IfOk result (λ _. Out self.old.nodes.now.count self.old.nodes.now.own terms.now.idle 255 u self.new.taken × ((w : ℕ) → w < u → entry self.new.taken w ≡ entry self.old.taken w)) }
        ensures spent { IfErr result (λ seen. (self.new.taken ≡ self.old.taken) × Aimed self.old.nodes.now.own self.old.taken (2 ^ owed) seen
            × Spent self.old.nodes.now.sets self.old.taken terms.now.idle owed u self.old.nodes.now.count terms.now.closed seen) }
    {
        let goals = bit_of(owed);
        let mut seen = terms.closed | (self.free ^ goals);
        for x in u + 1..self.nodes.count {
            let stays = must_stay(terms.idle, self.taken[x]);
            if stays {
                continue;
            }
            match self.reseat(x, goals, seen, steps) {
                Ok(()) => return Ok(()),
                Err(more) => seen = more,
            }
        }
        Err(seen)
    }
}
