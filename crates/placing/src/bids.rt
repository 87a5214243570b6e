// Bids for labels, by which most nodes are placed without a search: a node takes the label that costs it least, and its price rises until another would cost as little.
ghost use Rattle.std.specs.Prelude.{◌≡◌, ℕ, ◌+◌, ◌^◌, ◌≤◌, ◌<◌, ◌<ℤ◌, pos, replicate, unsigned_abs};
ghost use Rattle.placing.specs.Words.{entry};
ghost use Rattle.placing.specs.Priced.{price};
ghost use Rattle.placing.specs.Bids.{Choice, Displaced, Aloft, Landed};

use crate::choices::{choose, greater, lesser};
use crate::offers::Offers;
use crate::seats::Seats;
use crate::tight::price_of;
use crate::words::{bit_of, has, with_label};

// The net cost of a second label, where a node has one label alone.
const NONE: i64 = i64::MAX;

// The bids that a node and those it displaces make in turn.
// Kept: so many of 64 nodes keep each price within 2^50, as a bid adds at most the difference of two costs, 2^41.
const TURNS: usize = 8;

// A label of least net cost, and how far its price can rise.
#[derive(Clone, Copy)]
struct Bid {
    label: u8,
    raise: i64,
}

// The label of least net cost of node `u`, and how far its price can rise until another of its labels costs as little.
// Kept: functions that choose, as in the loop no branch is foreseen.
fn best_two(offers: &Offers, prices: &[i64; 64], u: usize) -> Bid
    requires node { u < offers.now.nodes.now.count }
    requires few { (l : ℕ) → unsigned_abs (price prices.now l) ≤ 2 ^ 50 }
    ensures { Choice offers.now prices.now u result.label result.raise }
{
    let labels = offers.sheet.labels_of(u);
    let start = offers.sheet.starts[u];
    let mut label = labels[0];
    let mut least = offers.costs[start] + price_of(prices, label);
    let mut second = NONE;
    for k in 1..labels.len() {
        let l = labels[k];
        let net = offers.costs[start + k] + price_of(prices, l);
        let nearer = net < least;
        second = lesser(second, greater(least, net));
        label = choose(nearer, l, label);
        least = lesser(least, net);
    }
    let raise = if second < NONE { second - least } else { 0 };
    Bid { label, raise }
}

impl<'a> Seats<'a> {
    // The node that takes the label leaves it: 255 if none does.
    fn displace(&mut self, label: u8) -> u8
        requires { label < 64 }
        ensures same { self.new.nodes.now ≡ self.old.nodes.now }
        ensures displaced { Displaced self.old.taken self.old.free label self.new.taken self.new.free result }
    {
        if has(self.free, label) {
            return 255;
        }
        let holder = self.holders[usize::from(label)];
        self.leave(usize::from(holder));
        holder
    }

    // Node `u`, which is not placed, takes its label of least net cost, if need be from another node, and the price rises to where the second costs as little.
    // The answer is the node that is not placed then, 255 for none: `u` itself where the price of a label that is held would not rise. So another leaves its label only for a price that rises.
    // Kept: the word of the nodes and the number of bids so far are bound in the contract, as the code reads neither.
    fn bid(&mut self, offers: &Offers, prices: &mut [i64; 64], u: usize) -> u8
        requires { (self.old.nodes.now ≡ offers.now.nodes.now) × (u < 64) × (out : ℕ) × (m : ℕ) × (m < 512) × Aloft offers.now self.old.taken self.old.free prices.old out m u }
        ensures same { self.new.nodes.now ≡ self.old.nodes.now }
        ensures placed { (out m : ℕ) → m < 512 → Aloft offers.now self.old.taken self.old.free prices.old out m u → Aloft offers.now self.new.taken self.new.free prices.new out (m + 1) result }
        ensures dearer { result < 64 → (result ≡ u → ⊥) → (l : ℕ) × (price prices.old l <ℤ price prices.new l) }
    {
        let bid = best_two(offers, prices, u);
        let label = bid.label;
        if label >= 64 {
            return 255;
        }
        if bid.raise == 0 && !has(self.free, label) {
            // Kept: a node is below 64, as in `Seats`.
            return u as u8;
        }
        let left = self.displace(label);
        self.give(u, label);
        let raised = price_of(prices, label) + bid.raise;
        prices[usize::from(label)] = raised;
        left
    }

    // Node `u` bids, then the node that it displaces, and so on. The answer is the one that is not placed in the end, 255 for none.
    fn bid_from(&mut self, offers: &Offers, prices: &mut [i64; 64], u: usize) -> u8
        requires { (self.old.nodes.now ≡ offers.now.nodes.now) × (u < 64) × (out : ℕ) × (m : ℕ) × (m + 8 ≤ 512) × Aloft offers.now self.old.taken self.old.free prices.old out m u }
        ensures same { self.new.nodes.now ≡ self.old.nodes.now }
        ensures placed { (out m : ℕ) → m + 8 ≤ 512 → Aloft offers.now self.old.taken self.old.free prices.old out m u → Aloft offers.now self.new.taken self.new.free prices.new out (m + 8) result }
    {
        // Kept: a node is below 64, as in `Seats`.
        let mut node = u as u8;
        for turn in 0..TURNS {
            let next = self.bid(offers, prices, usize::from(node));
            if next == 255 || next == node {
                return next;
            }
            node = next;
        }
        node
    }

    // Each node bids. The answer is the word of those that are not placed; it has the numbers past the nodes too.
    pub(crate) fn bid_all(&mut self, offers: &Offers, prices: &mut [i64; 64]) -> u64
        requires { (self.old.nodes.now ≡ offers.now.nodes.now) × ((u : ℕ) → u < 64 → entry self.old.taken u ≡ 255) × (prices.old ≡ replicate 64 (pos 0)) }
        ensures same { self.new.nodes.now ≡ self.old.nodes.now }
        ensures placed { Landed offers.now self.new.taken self.new.free prices.new result 512 }
    {
        let mut out = u64::MAX;
        for u in 0..self.nodes.count {
            let left = self.bid_from(offers, prices, u);
            // Kept: a node is below 64, as in `Seats`.
            out = with_label(out ^ bit_of(u as u8), left);
        }
        out
    }
}
