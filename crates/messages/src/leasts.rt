// The least usable cell of each position of an end: the least of all its cells, four positions at a time, and where an unusable one is as low, the least of the others. Document 02, wish 2.
ghost use Rattle.std.specs.Prelude.{◌≡◌, ◌+◌, ◌*◌, ◌/◌, ◌<◌, ◌≤◌, false, IfSome, length, pos, replicate};
ghost use Rattle.integers.specs.Least.{least_from};
ghost use Rattle.integers.specs.Places.{tabulate};
ghost use Rattle.messages.specs.EdgeMessage.{left_of, over, unbounded};

use crate::clash::{clash_from, mask_of};
use crate::edge_message::Joint;
use crate::end::End;
use crate::rows::{UNBOUNDED, less_at};

impl Joint<'_> {
    ghost use Rattle.messages.specs.Joints.{own_step, other_step, line_in, low_in, least_in, Above};

    // How far apart the cells of neighbouring positions stand: of this end, and of the other.
    fn strides(&self) -> (usize, usize)
        ensures { (result.0 ≡ own_step self.now) × (result.1 ≡ other_step self.now) }
    {
        match self.end {
            End::Lower => (self.other.len(), 1),
            End::Higher => (1, self.own.len()),
        }
    }

    // The least cells of four positions, of which `k` is the first: side by side, as four minima wait for each other less.
    fn four_lows(&self, k: usize) -> [i64; 4]
        requires { k + 4 ≤ length self.now.own.now }
        ensures { result ≡ tabulate 4 (λ t. low_in self.now (k + t)) }
    {
        let (own, other) = self.strides();
        let mut a = UNBOUNDED;
        let mut b = UNBOUNDED;
        let mut c = UNBOUNDED;
        let mut d = UNBOUNDED;
        for i in 0..self.other.len() {
            let at = k * own + i * other;
            a = a.min(self.cells[at]);
            b = b.min(self.cells[at + own]);
            c = c.min(self.cells[at + 2 * own]);
            d = d.min(self.cells[at + 3 * own]);
        }
        [a, b, c, d]
    }

    // The least of the cells at a position but for the one at `skip`, if there is one: of those before it and of those after.
    fn low_at(&self, k: usize, skip: Option<usize>) -> i64
        requires k_bound { k < length self.now.own.now }
        requires skip_bound { IfSome skip (λ s. s < length self.now.other.now) }
        ensures { result ≡ least_from unbounded (left_of (line_in self.now k) skip) }
    {
        let (own, other) = self.strides();
        let many = self.other.len();
        let gap = skip.unwrap_or(many);
        let mut best = UNBOUNDED;
        for i in 0..gap {
            best = less_at(self.cells, k * own + i * other, best);
        }
        for i in gap + 1..many {
            best = less_at(self.cells, k * own + i * other, best);
        }
        best
    }

    // The leasts of the positions in whole fours.
    // Kept: by their places, since a proof knows nothing of what is written through `chunks_exact_mut`.
    fn lows_by_four(&self, least: &mut [i64; 16])
        requires { least.old ≡ replicate 16 (pos 0) }
        ensures { least.new ≡ over (low_in self.now) (length self.now.own.now / 4 * 4) (replicate 16 (pos 0)) }
    {
        for q in 0..self.own.len() / 4 {
            let k = 4 * q;
            let [a, b, c, d] = self.four_lows(k);
            least[k] = a;
            least[k + 1] = b;
            least[k + 2] = c;
            least[k + 3] = d;
        }
    }

    // And of those left after the whole fours.
    fn lows_left(&self, least: &mut [i64; 16])
        requires { least.old ≡ over (low_in self.now) (length self.now.own.now / 4 * 4) (replicate 16 (pos 0)) }
        ensures { least.new ≡ over (low_in self.now) (length self.now.own.now) (replicate 16 (pos 0)) }
    {
        let many = self.own.len();
        for k in many / 4 * 4..many {
            least[k] = self.low_at(k, None);
        }
    }

    // Passes over the unusable cells: where one is as low as its position's least, the least of the others. Whether there was such a one.
    fn pass_over(&self, least: &mut [i64; 16]) -> bool
        requires { least.old ≡ over (low_in self.now) (length self.now.own.now) (replicate 16 (pos 0)) }
        ensures lows { least.new ≡ over (least_in self.now) (length self.now.own.now) (replicate 16 (pos 0)) }
        ensures above { result ≡ false → Above self.now }
    {
        let (own, other) = self.strides();
        let mask = mask_of(self.other);
        let mut passed = false;
        let mut from = 0;
        for (k, label) in self.own.iter().enumerate() {
            if let Some(skip) = clash_from(self.other, mask, *label, from) {
                from = skip + 1;
                if self.cells[k * own + skip * other] <= least[k] {
                    least[k] = self.low_at(k, Some(skip));
                    passed = true;
                }
            }
        }
        passed
    }

    // The least usable cell of each position. Where the answer is false, it is the least of all cells there: no unusable one is lower.
    pub(crate) fn leasts(&self, least: &mut [i64; 16]) -> bool
        requires zeros { least.old ≡ replicate 16 (pos 0) }
        ensures lows { least.new ≡ over (least_in self.now) (length self.now.own.now) (replicate 16 (pos 0)) }
        ensures above { result ≡ false → Above self.now }
    {
        self.lows_by_four(least);
        self.lows_left(least);
        self.pass_over(least)
    }
}
