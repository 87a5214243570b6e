// Shortest paths among the labels, from a node that is to be placed: over the nodes that hold labels to one that is free, or to 255.
ghost use Rattle.std.specs.Prelude.{◌≡◌, ℕ, ◌+◌, ◌^◌, ◌≤◌, ◌<◌, ℤ, ◌+ℤ◌, slice_index_or, replicate, pos, unsigned_abs, MatchOption};
ghost use Rattle.placing.specs.Words.{entry, All};
ghost use Rattle.placing.specs.Priced.{price};
ghost use Rattle.placing.specs.Paths.{far_of, Kind, Row, Turn, Bounded, Chosen, Reached, Scanned, Searched, Onward, Ended, Raising, RaisedTo};

use crate::choices::lesser;
use crate::offers::Offers;
use crate::seats::Seats;
use crate::words::{bit_of, has, lowest};

// The way to a label that is not met.
const FAR: i64 = i64::MAX;

// A label's entry.
// Kept: a function, as nothing is known of the range of a signed number that is read out of a struct's array.
fn at(table: &[i64; 64], l: u8) -> i64
    requires { l < 64 }
    ensures { result ≡ slice_index_or table.now l (pos 0) }
{
    table[usize::from(l)]
}

// The prices of the labels, and a search for a label of least cost: step 0 is at the root, each other at the node that holds the step's label.
// `far` is the least way to each label and `by` the step from which it comes, `home` and `home_by` the same of 255. `bound` is the least way to an end, which is a free label or 255, and `goal` that end: a way that is not shorter is passed over. `waiting` has the other labels met from which no step went.
#[derive(Drop)]
pub(crate) struct Paths {
    pub prices: [i64; 64],
    pub far: [i64; 64],
    pub by: [u8; 64],
    pub labels: [u8; 64],
    pub nodes: [u8; 64],
    pub step: usize,
    pub waiting: u64,
    pub home: i64,
    pub home_by: u8,
    pub bound: i64,
    pub goal: u8,
}

impl Paths {
    // No label has a price.
    pub(crate) fn new() -> Paths
        ensures { result.prices ≡ replicate 64 (pos 0) }
    {
        Paths {
            prices: [0; 64],
            far: [FAR; 64],
            by: [0; 64],
            labels: [0; 64],
            nodes: [0; 64],
            step: 0,
            waiting: 0,
            home: FAR,
            home_by: 0,
            bound: FAR,
            goal: 255,
        }
    }

    // A way from the last step to a label, but for the label's price; `free` has the labels that are free.
    fn reach(&mut self, free: u64, l: u8, way: i64)
        requires { Kind l × (self.old.step < 64) × (unsigned_abs way ≤ 2 ^ 60) × (unsigned_abs (price self.old.prices l) ≤ 2 ^ 50) × Bounded free self.old }
        ensures { Reached self.old self.new l (way +ℤ price self.old.prices l) × Bounded free self.new }
    {
        // Kept: a step is below 64; `try_from` would add a case that cannot happen.
        let step = self.step as u8;
        if l < 64 {
            let price = at(&self.prices, l);
            let known = at(&self.far, l);
            let far = way + price;
            if far < lesser(known, self.bound) {
                let label = usize::from(l);
                self.far[label] = far;
                self.by[label] = step;
                if has(free, l) {
                    self.bound = far;
                    self.goal = l;
                } else {
                    self.waiting |= bit_of(l);
                }
            }
        } else if way < self.bound {
            self.home = way;
            self.home_by = step;
            self.bound = way;
            self.goal = l;
        }
    }

    // The least way to a label.
    // Kept: of 255 too, as nothing is known of the range of a signed field of a struct that a loop changes.
    fn way_to(&self, l: u8) -> i64
        requires { Kind l }
        ensures { result ≡ far_of self.now l }
    {
        if l < 64 { at(&self.far, l) } else { self.home }
    }

    // The least way to an end.
    // Kept: a function, as in `way_to`.
    fn way_out(&self) -> i64
        ensures { result ≡ self.now.bound }
    {
        self.bound
    }

    // The ways from the last step, which is at node `u`.
    fn scan(&mut self, free: u64, offers: &Offers, u: usize, base: i64)
        requires { Row offers.now self.old u base × Bounded free self.old }
        ensures { Scanned offers.now self.old self.new u base × Bounded free self.new }
    {
        let labels = offers.sheet.labels_of(u);
        let start = offers.sheet.starts[u];
        for (k, label) in labels.iter().enumerate() {
            let cost = offers.costs[start + k];
            self.reach(free, *label, base + cost);
        }
    }

    // The label that waits with the least way, 64 if none is nearer than an end.
    // Kept: 64 and no Option: the loop that asks reads the number alone.
    fn nearest(&self) -> u8
        ensures { Chosen self.now result }
    {
        let mut best = 64;
        let mut least = self.bound;
        let mut rest = self.waiting;
        while rest != 0 {
            let l = lowest(rest);
            let far = at(&self.far, l);
            if far < least {
                best = l;
                least = far;
            }
            rest &= rest - 1;
        }
        best
    }

    // Step 0, at the root.
    fn begin(&mut self, seats: &Seats, offers: &Offers, root: usize)
        requires { Turn offers.now seats.now self.old.prices root }
        ensures { (self.new.prices ≡ self.old.prices) × Searched offers.now seats.now self.new root (self.new.step + 1) }
    {
        self.far = [FAR; 64];
        self.home = FAR;
        self.bound = FAR;
        self.goal = 255;
        self.waiting = 0;
        self.step = 0;
        // Kept: a node is below 64, as in `Seats`.
        self.nodes[0] = root as u8;
        self.scan(seats.free, offers, root, 0);
    }

    // A step more, at the node that holds the label.
    fn go(&mut self, seats: &Seats, offers: &Offers, l: u8)
        requires { (root : ℕ) × Onward offers.now seats.now self.old root l }
        ensures { (root : ℕ) → Onward offers.now seats.now self.old root l → (self.new.prices ≡ self.old.prices) × (self.new.step ≡ self.old.step + 1) × Searched offers.now seats.now self.new root (self.new.step + 1) }
    {
        let holder = seats.holders[usize::from(l)];
        let u = usize::from(holder);
        let far = at(&self.far, l);
        let price = at(&self.prices, l);
        let cost = offers.cost(u, l);
        let base = far - price - cost;
        self.step += 1;
        self.labels[self.step] = l;
        self.nodes[self.step] = holder;
        self.waiting ^= bit_of(l);
        self.scan(seats.free, offers, u, base);
    }

    // Goes from the root to the nearest label that is free, or to 255: the label where it ends, and none if no way leads on.
    pub(crate) fn find_end(&mut self, seats: &Seats, offers: &Offers, root: usize) -> Option<u8>
        requires { Turn offers.now seats.now self.old.prices root }
        ensures same { self.new.prices ≡ self.old.prices }
        ensures answer { MatchOption result ((q : ℕ → ℕ) → All offers.now.nodes.now.count offers.now.nodes.now.sets offers.now.nodes.now.own q → ⊥)
            (λ end. Searched offers.now seats.now self.new root (self.new.step + 1) × Ended seats.now self.new end) }
    {
        self.begin(seats, offers, root);
        let mut l = self.nearest();
        while l < 64 {
            self.go(seats, offers, l);
            l = self.nearest();
        }
        let bound = self.way_out();
        if bound < FAR { Some(self.goal) } else { None }
    }

    // The labels from which steps went cost more by as much as they are nearer than the end.
    pub(crate) fn raise(&mut self, end: u8)
        requires { Kind end × Raising self.old (far_of self.old end) }
        ensures { RaisedTo self.old self.new (far_of self.old end) (self.old.step + 1) }
    {
        let whole = self.way_to(end);
        for i in 1..self.step + 1 {
            let l = self.labels[i];
            let price = at(&self.prices, l);
            let far = at(&self.far, l);
            let raised = price + (whole - far);
            self.prices[usize::from(l)] = raised;
        }
    }
}
