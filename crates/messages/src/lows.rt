// The two least of some costs: a node's, or a label's and the untaken 0. They tell the least beside each of the costs, and stay known while costs move toward it.
ghost use Rattle.std.specs.Prelude.{◌≡◌, ℕ, ◌-◌, ◌<◌, ◌≤◌, true, length, pos, ◌<ℤ◌, slice_index, slice_index_or, unsigned_abs};
ghost use Rattle.rules.specs.Calls.{cost_limit};
ghost use Rattle.integers.specs.Places.{range};
ghost use Rattle.messages.specs.EdgeMessage.{unbounded};
ghost use Rattle.messages.specs.Lows.{Lowest, Apart, lows, lows_with, low_beside, lows_moved, given_by};

use crate::records::Flow;
use crate::rows::{UNBOUNDED, share_of};
use crate::share::Share;

#[derive(Clone, Copy)]
pub(crate) struct Lows {
    pub least: i64,
    pub second: i64,
}

impl Lows {
    // Of no costs but `start`.
    fn of(start: i64) -> Lows
        ensures { result ≡ lows start unbounded }
    {
        Lows {
            least: start,
            second: UNBOUNDED,
        }
    }

    // With one cost more.
    #[tactic(auto, using(crate::proofs::RowLaws::less_back), unfolding(crate::specs::Lows::lows_with))]
    fn with(self, cost: i64) -> Lows
        ensures { result ≡ lows_with self cost }
    {
        if cost < self.least {
            Lows {
                least: cost,
                second: self.least,
            }
        } else {
            Lows {
                least: self.least,
                second: self.second.min(cost),
            }
        }
    }

    // The least beside one of the costs.
    #[tactic(auto, unfolding(crate::specs::Lows::low_beside))]
    fn beside(self, cost: i64) -> i64
        ensures { result ≡ low_beside self cost }
    {
        if self.least < cost {
            self.least
        } else {
            self.second
        }
    }

    // What one of the costs gives: a share of its distance from the least beside it, and 0 with no other.
    #[tactic(auto, using(integers::proofs::Bits::answer, integers::proofs::Bits::same), unfolding(crate::specs::Lows::given_by))]
    pub(crate) fn given(self, cost: i64, share: Share) -> i64
        requires { (unsigned_abs cost ≤ cost_limit) × (low_beside self cost <ℤ unbounded → unsigned_abs (low_beside self cost) ≤ cost_limit) }
        ensures { result ≡ given_by cost (low_beside self cost) share.parts }
    {
        let low = self.beside(cost);
        if low < UNBOUNDED {
            share_of(cost, low, share)
        } else {
            0
        }
    }

    // Once one of the costs has moved toward the least beside it.
    #[tactic(auto, using(crate::proofs::RowLaws::less_back), unfolding(crate::specs::Lows::lows_moved))]
    pub(crate) fn moved(self, from: i64, to: i64) -> Lows
        ensures { result ≡ lows_moved self from to }
    {
        if self.least < from {
            Lows {
                least: self.least,
                second: self.second.min(to),
            }
        } else {
            Lows {
                least: to,
                second: self.second,
            }
        }
    }
}

// Those that are known between records: of a node, from which costs go to its labels, or of a label, from which they go to its nodes.
#[derive(Clone, Copy)]
pub(crate) struct Known {
    pub flow: Flow,
    pub of: usize,
    pub lows: Lows,
}

impl Known {
    // Whether they are those that a record asks for. It promises one side: where it says no, they are looked for again.
    pub(crate) fn fits(self, flow: Flow, of: usize) -> bool
        ensures { result ≡ true → (self.flow ≡ flow) × (self.of ≡ of) }
    {
        self.flow == flow && self.of == of
    }
}

// Of a node's costs, which stand from one place to another.
pub(crate) fn node_lows(costs: &[i64], from: usize, to: usize) -> Lows
    requires { (from ≤ to) × (to ≤ length costs.now) }
    ensures { Lowest unbounded (λ i. slice_index_or costs.now i (pos 0)) (range from (to - from)) result }
{
    let mut all = Lows::of(UNBOUNDED);
    for i in from..to {
        all = all.with(costs[i]);
    }
    all
}

// Of the costs of a label's places, and 0.
pub(crate) fn label_lows(costs: &[i64], places: &[u16]) -> Lows
    requires inside { (j : ℕ) → j < length places.now → slice_index places.now j < length costs.now }
    requires apart { Apart places.now }
    ensures { Lowest (pos 0) (λ i. slice_index_or costs.now i (pos 0)) places.now result }
{
    let mut all = Lows::of(0);
    for place in places {
        all = all.with(costs[usize::from(*place)]);
    }
    all
}
