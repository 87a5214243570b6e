// The cells at which a node pays as little as at the label that it takes, and the labels without a price.
ghost use Rattle.std.specs.Prelude.{◌≡◌, true, ℕ, ◌^◌, ◌≤◌, ◌<◌, ◌≤ℤ◌, pos, unsigned_abs};
ghost use Rattle.instance.specs.Sheet.{instance_of};
ghost use Rattle.placing.specs.Words.{entry, opens};
ghost use Rattle.placing.specs.Priced.{cost_at, price, Tight, Unpriced};
ghost use Rattle.placing.specs.TightRows.{Joins, RowTight};

use crate::offers::Offers;
use crate::tables::{Nodes, Row};
use crate::words::bit_of;

// The price of a label; 255 has none.
// Kept: it reads a price in either case, so that the choice is no branch.
pub(crate) fn price_of(prices: &[i64; 64], label: u8) -> i64
    ensures { result ≡ price prices.now label }
{
    let price = prices[usize::from(label % 64)];
    if label < 64 { price } else { 0 }
}

// A row with a label more.
fn joined(row: Row, label: u8) -> Row
    ensures { Joins row label result }
{
    if label < 64 {
        Row {
            word: row.word | bit_of(label),
            own: row.own,
        }
    } else {
        Row {
            word: row.word,
            own: true,
        }
    }
}

impl<'a> Offers<'a> {
    // The labels of node `u` at which it pays no more than at the label that is given.
    fn tight_row(&self, u: usize, label: u8, prices: &[i64; 64]) -> Row
        requires node { (u < self.now.nodes.now.count) × (opens self.now.nodes.now.sets self.now.nodes.now.own u label ≡ true) }
        requires few { (l : ℕ) → unsigned_abs (price prices.now l) ≤ 2 ^ 50 }
        ensures { RowTight self.now.nodes.now.sets self.now.nodes.now.own (cost_at (instance_of self.now.sheet.now.bytes.now) self.now.nodes.now.sets self.now.costs.now) u label prices.now result }
    {
        let labels = self.sheet.labels_of(u);
        let start = self.sheet.starts[u];
        let least = self.cost(u, label) + price_of(prices, label);
        let mut row = Row {
            word: 0,
            own: false,
        };
        for (k, l) in labels.iter().enumerate() {
            let here = self.costs[start + k] + price_of(prices, *l);
            if here <= least {
                row = joined(row, *l);
            }
        }
        row
    }

    // The same of all nodes.
    pub(crate) fn tight(&self, taken: &[u8; 64], prices: &[i64; 64]) -> Nodes
        requires taken { (u : ℕ) → u < self.now.nodes.now.count → opens self.now.nodes.now.sets self.now.nodes.now.own u (entry taken.now u) ≡ true }
        requires few { (l : ℕ) → unsigned_abs (price prices.now l) ≤ 2 ^ 50 }
        ensures count { result.count ≡ self.now.nodes.now.count }
        ensures tight { Tight self.now.nodes.now.count self.now.nodes.now.sets self.now.nodes.now.own (cost_at (instance_of self.now.sheet.now.bytes.now) self.now.nodes.now.sets self.now.costs.now) taken.now prices.now result.sets result.own }
    {
        let mut nodes = Nodes {
            count: self.nodes.count,
            sets: [0; 64],
            own: [false; 64],
        };
        for u in 0..self.nodes.count {
            let row = self.tight_row(u, taken[u], prices);
            nodes.sets[u] = row.word;
            nodes.own[u] = row.own;
        }
        nodes
    }
}

// The labels that have no price.
pub(crate) fn unpriced(prices: &[i64; 64]) -> u64
    requires { (l : ℕ) → pos 0 ≤ℤ price prices.now l }
    ensures { Unpriced prices.now result }
{
    let mut idle = 0;
    for (label, price) in prices.iter().enumerate() {
        if *price <= 0 {
            // Kept: a label is below 64; `try_from` would add a case that cannot happen.
            idle |= bit_of(label as u8);
        }
    }
    idle
}
