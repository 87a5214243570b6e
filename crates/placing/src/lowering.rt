// The smallest placing: node by node, the lowest label with which all nodes can be placed, those below staying where they are. Some labels may have to be taken.
ghost use Rattle.std.specs.Prelude.{◌≡◌, true, false, ℕ, ◌≤◌, ◌<◌};
ghost use Rattle.assignment.specs.First.{First};
ghost use Rattle.integers.specs.Words.{bit};
ghost use Rattle.placing.specs.Words.{entry, flag, Full, Seated, Aimed, Below, Lowered, Lowest, Tried};

use crate::filling::must_stay;
use crate::search::Steps;
use crate::seats::Seats;
use crate::words::{bit_of, has_below, lowest, with_label};

// What a node is lowered under: the labels of the nodes below it, which stay theirs, and the labels that may stay free.
#[derive(Drop)]
pub(crate) struct Terms {
    pub closed: u64,
    pub idle: u64,
}

impl<'a> Seats<'a> {
    // The labels that nodes above a node `u` take and can leave, as they have 255, where `u` takes none and `closed` has the labels of the nodes below it.
    // Kept: `u` is bound in the contract, as the code does not read it.
    fn loose(&self, closed: u64) -> u64
        ensures only { (u : ℕ) → 64 ≤ entry self.now.taken u → Below closed u self.now.taken
            → (l : ℕ) → bit result l ≡ true → (w : ℕ) × (w < 64) × (u < w) × (entry self.now.taken w ≡ l) × (flag self.now.nodes.now.own w ≡ true) }
        ensures all { (u : ℕ) → Below closed u self.now.taken
            → (w : ℕ) → u < w → w < self.now.nodes.now.count → flag self.now.nodes.now.own w ≡ true → entry self.now.taken w < 64 → bit result (entry self.now.taken w) ≡ true }
    {
        (self.owned | closed) ^ closed
    }

    // Node `u`, which takes none, takes the lowest of its labels from which a search meets one of `goals`, if there is one. No label of `before` is touched.
    // Kept: inlined, as `chain` is.
    #[inline(always)]
    fn settle(&mut self, u: usize, goals: u64, before: u64, steps: &mut Steps)
        requires { (u < 64) × (64 ≤ entry self.old.taken u) × Aimed self.old.nodes.now.own self.old.taken goals before }
        ensures same { self.new.nodes.now ≡ self.old.nodes.now }
        ensures tried { Tried self.old.nodes.now.sets self.old.nodes.now.own self.old.taken goals before u self.new.taken }
    {
        let mut seen = before;
        let mut rest = (self.nodes.sets[u] | seen) ^ seen;
        // Kept: no range and no iterator, as each turn takes from the rest all that it saw.
        while rest != 0 {
            let l = lowest(rest);
            match self.chain(bit_of(l), seen, goals, u, steps) {
                Ok(()) => return,
                Err(more) => seen = more,
            }
            rest = (rest | seen) ^ seen;
        }
    }

    // Lets node `u` take the lowest of its labels with which all nodes can be placed and all labels taken that are not of `idle`.
    // Where its label may not stay free and no other node can take it, only what leads to that label will do; else each label that is free, or that its node can leave.
    fn lower(&mut self, u: usize, terms: &Terms, steps: &mut Steps)
        requires { Lowered self.old.nodes.now.count self.old.nodes.now.sets self.old.nodes.now.own terms.now.idle self.old.taken terms.now.closed u
            × (u < self.old.nodes.now.count) }
        ensures same { self.new.nodes.now ≡ self.old.nodes.now }
        ensures lowest { Lowest self.old.nodes.now.count self.old.nodes.now.sets self.old.nodes.now.own terms.now.idle self.old.taken u self.new.taken }
    {
        let label = self.taken[u];
        let closed = terms.closed;
        if !has_below((self.nodes.sets[u] | closed) ^ closed, label) {
            return;
        }
        self.leave(u);
        let owed = must_stay(terms.idle, label);
        if owed {
            if let Err(seen) = self.fill(u, label, terms, steps) {
                let goals = bit_of(label);
                self.settle(u, goals, seen, steps);
                return;
            }
        }
        let loose = self.loose(closed);
        let goals = self.free | loose;
        self.settle(u, goals, closed, steps);
    }

    // The same for all nodes in order.
    pub(crate) fn lower_all(&mut self, idle: u64)
        requires seated { Seated self.old.nodes.now.own 64 self.old.nodes.now.count self.old.taken }
        requires filled { (l : ℕ) → l < 64 → bit idle l ≡ false → bit self.old.free l ≡ false }
        ensures { First (Full self.old.nodes.now.count self.old.nodes.now.sets self.old.nodes.now.own idle) self.old.nodes.now.count (entry self.new.taken) }
    {
        let mut closed = 0;
        let mut steps = Steps::new();
        for u in 0..self.nodes.count {
            let terms = Terms { closed, idle };
            self.lower(u, &terms, &mut steps);
            closed = with_label(closed, self.taken[u]);
        }
    }
}
