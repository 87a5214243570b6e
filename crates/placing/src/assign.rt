// All nodes placed at least total cost: node by node, each over a path of least cost.
ghost use Rattle.std.specs.Prelude.{◌≡◌, ℕ, ◌^◌, ◌<◌, ℤ, MatchOption};
ghost use Rattle.std.specs.Int.Bits.{bit_xor};
ghost use Rattle.placing.specs.Words.{entry, All, Seated, Stands, Standing};
ghost use Rattle.placing.specs.Priced.{Priced};
ghost use Rattle.placing.specs.Paths.{paid, Turn, Trace, Opening, Cheapest};

use crate::offers::Offers;
use crate::paths::Paths;
use crate::seats::Seats;
use crate::words::{bit_of, has};

impl<'a> Seats<'a> {
    // The label is free: the node of the step by which it was found takes it, the label that this one leaves goes to the step before, and so on to the root.
    // Kept: the costs by which the prices were found and the nodes that are not placed are bound in the contract, as the code reads none.
    fn move_back(&mut self, paths: &Paths, label: u8)
        requires { (c : ℕ → ℕ → ℤ) × (out : ℕ) × Trace self.old.nodes.now.sets self.old.nodes.now.own c paths.now × Opening self.old.nodes.now.count out self.old.nodes.now.sets self.old.nodes.now.own c paths.now self.old.taken self.old.free label }
        ensures same { self.new.nodes.now ≡ self.old.nodes.now }
        ensures placed { (c : ℕ → ℕ → ℤ) → (out : ℕ) → Trace self.old.nodes.now.sets self.old.nodes.now.own c paths.now → Opening self.old.nodes.now.count out self.old.nodes.now.sets self.old.nodes.now.own c paths.now self.old.taken self.old.free label
            → Cheapest self.old.nodes.now.count (bit_xor out (2 ^ entry paths.now.nodes 0)) self.old.nodes.now.sets self.old.nodes.now.own c self.new.taken self.new.free paths.now.prices }
    {
        let mut l = label;
        let mut step = paths.by[usize::from(l)];
        while step != 0 {
            let i = usize::from(step);
            let holder = usize::from(paths.nodes[i]);
            self.leave(holder);
            self.give(holder, l);
            l = paths.labels[i];
            step = paths.by[usize::from(l)];
        }
        let root = usize::from(paths.nodes[0]);
        self.give(root, l);
    }

    // Places the root, where others are placed at least cost, so that all these are; none if not all nodes can be placed.
    fn place_root(&mut self, offers: &Offers, paths: &mut Paths, root: usize) -> Option<()>
        requires { (self.old.nodes.now ≡ offers.now.nodes.now) × Turn offers.now self.old paths.old.prices root }
        ensures same { self.new.nodes.now ≡ self.old.nodes.now }
        ensures placed { MatchOption result ((q : ℕ → ℕ) → All offers.now.nodes.now.count offers.now.nodes.now.sets offers.now.nodes.now.own q → ⊥)
            (λ _. (t : Turn offers.now self.old paths.old.prices root) → Standing (Stands offers.now.nodes.now.count (bit_xor t.out (2 ^ root))) offers.now.nodes.now.own self.new.taken
            × Priced (Stands offers.now.nodes.now.count (bit_xor t.out (2 ^ root))) offers.now.nodes.now.sets offers.now.nodes.now.own (paid offers.now) self.new.taken self.new.free paths.new.prices) }
    {
        let end = paths.find_end(self, offers, root)?;
        paths.raise(end);
        if end < 64 {
            self.move_back(paths, end);
        } else if paths.home_by != 0 {
            let step = usize::from(paths.home_by);
            let holder = usize::from(paths.nodes[step]);
            self.leave(holder);
            self.move_back(paths, paths.labels[step]);
        }
        Some(())
    }

    // Places all nodes at least total cost, most by bids and the rest by searches, and answers prices of the labels that show it; none if not all can be placed.
    pub(crate) fn assign_all(&mut self, offers: &Offers) -> Option<[i64; 64]>
        requires { (self.old.nodes.now ≡ offers.now.nodes.now) × ((u : ℕ) → u < 64 → entry self.old.taken u ≡ 255) }
        ensures same { self.new.nodes.now ≡ self.old.nodes.now }
        ensures placed { MatchOption result ((q : ℕ → ℕ) → All offers.now.nodes.now.count offers.now.nodes.now.sets offers.now.nodes.now.own q → ⊥)
            (λ prices. Seated offers.now.nodes.now.own 64 offers.now.nodes.now.count self.new.taken × Priced (λ u. u < offers.now.nodes.now.count) offers.now.nodes.now.sets offers.now.nodes.now.own (paid offers.now) self.new.taken self.new.free prices) }
    {
        let mut paths = Paths::new();
        let mut out = self.bid_all(offers, &mut paths.prices);
        for root in 0..self.nodes.count {
            // Kept: a node is below 64, as in `Seats`.
            let node = root as u8;
            if has(out, node) {
                self.place_root(offers, &mut paths, root)?;
                out ^= bit_of(node);
            }
        }
        Some(paths.prices)
    }
}
