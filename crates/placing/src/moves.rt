// Nodes move along a trail of labels, so that one more node is placed.
ghost use Rattle.std.specs.Prelude.{◌≡◌, true, ℕ, ◌<◌, IfOk, IfErr};
ghost use Rattle.integers.specs.Words.{bit};
ghost use Rattle.placing.specs.Words.{Asked, Aimed, Met, Rooted, Ended, Vacated};

use crate::search::{Meeting, Steps};
use crate::seats::Seats;
use crate::words::has;

impl<'a> Seats<'a> {
    // The node that takes the label, if one does, leaves it.
    fn vacate(&mut self, l: u8)
        requires { l < 64 }
        ensures same { self.new.nodes.now ≡ self.old.nodes.now }
        ensures reach { self.new.reach ≡ self.old.reach }
        ensures vacated { Vacated self.old.taken self.old.free l self.new.taken self.new.free }
    {
        if !has(self.free, l) {
            let holder = self.holders[usize::from(l)];
            self.leave(usize::from(holder));
        }
    }

    // Kept: what a search from the root asks (`Asked`) is asked for here and in `chain`, as it speaks of where the search began, which the code hands to one of them alone.
    // The label that a search met is free: the node by way of whose label it was found takes it, the label left goes to the one before, and so on to the root.
    fn shift(&mut self, steps: &Steps, met: Meeting, root: usize)
        requires { (start : ℕ) × (before : ℕ) × Asked self.old.nodes.now.sets self.old.taken start before root × Met self.old.reach self.old.free start before steps.now.by steps.now.words met.count met.label }
        ensures same { self.new.nodes.now ≡ self.old.nodes.now }
        ensures placed { (start before : ℕ) → Asked self.old.nodes.now.sets self.old.taken start before root
            → Met self.old.reach self.old.free start before steps.now.by steps.now.words met.count met.label → Rooted self.old.nodes.now.own self.old.taken start before root met.label self.new.taken }
    {
        let mut l = met.label;
        for i in (0..met.count).rev() {
            if has(steps.words[i], l) {
                let from = steps.by[i];
                let holder = usize::from(self.holders[usize::from(from)]);
                self.leave(holder);
                self.give(holder, l);
                l = from;
            }
        }
        self.give(root, l);
    }

    // Places the root at a label of `start`, if others can shift so that one of `goals` is taken: one that is free, or that its holder leaves for 255.
    // Else no node moves, and the answer is the labels seen. No label of `before` is touched. The search goes in `steps`.
    // Kept: inlined, as the compiler else calls it from each of its places, and a placing takes up to a twentieth longer.
    #[inline(always)]
    pub(crate) fn chain(
        &mut self,
        start: u64,
        before: u64,
        goals: u64,
        root: usize,
        steps: &mut Steps,
    ) -> Result<(), u64>
        requires { Asked self.old.nodes.now.sets self.old.taken start before root × Aimed self.old.nodes.now.own self.old.taken goals before }
        ensures same { self.new.nodes.now ≡ self.old.nodes.now }
        ensures placed { IfOk result (λ _. (met : ℕ) × (bit goals met ≡ true) × Rooted self.old.nodes.now.own self.old.taken start before root met self.new.taken) }
        ensures barred { IfErr result (λ seen. (self.new.taken ≡ self.old.taken) × Ended self.old.reach goals start before seen) }
    {
        let met = self.search(start, before, goals, steps)?;
        self.vacate(met.label);
        self.shift(steps, met, root);
        Ok(())
    }
}
