// A sheet with a position for each of its nodes, and what that costs.
ghost use Rattle.std.specs.Prelude.{◌≡◌, ◌<◌, ◌≤◌, unsigned_abs};
ghost use Rattle.integers.specs.Places.{total};
ghost use Rattle.instance.specs.Sheet.{instance_of};
ghost use Rattle.rules.specs.Costs.{Labelling, chosen, chosen_cell, price_of};

use instance::Sheet;

#[derive(Drop)]
pub(crate) struct Labelled<'a> {
    pub sheet: &'a Sheet<'a>,
    pub x: &'a [u8],
    ghost labelling: { Labelling (instance_of sheet.now.bytes.now) x.now },
}

impl Labelled<'_> {
    // The nodes' prices at the positions.
    fn node_part(&self) -> i64
        ensures { (result ≡ total self.now.sheet.now.nodes (λ u. (instance_of self.now.sheet.now.bytes.now).node_price (chosen (instance_of self.now.sheet.now.bytes.now) self.now.x.now u))) × (unsigned_abs result ≤ 64_000_000) }
    {
        let sheet = self.sheet;
        let mut sum = 0;
        for u in 0..sheet.nodes {
            sum += sheet.node_price(sheet.starts[u] + usize::from(self.x[u]));
        }
        sum
    }

    // The cell of an edge at the positions.
    fn cell_of(&self, e: usize) -> usize
        requires { e < self.now.sheet.now.edges }
        ensures { (result ≡ chosen_cell (instance_of self.now.sheet.now.bytes.now) self.now.x.now e) × (result < self.now.sheet.now.cells) }
    {
        let sheet = self.sheet;
        let x = self.x;
        let u = sheet.low(e);
        let v = sheet.high(e);
        sheet.tables[e] + (sheet.degree(v) * usize::from(x[u]) + usize::from(x[v]))
    }

    // The edges' prices there.
    fn edge_part(&self) -> i64
        ensures { (result ≡ total self.now.sheet.now.edges (λ e. (instance_of self.now.sheet.now.bytes.now).edge_price (chosen_cell (instance_of self.now.sheet.now.bytes.now) self.now.x.now e))) × (unsigned_abs result ≤ 256_000_000) }
    {
        let sheet = self.sheet;
        let mut sum = 0;
        for e in 0..sheet.edges {
            sum += sheet.edge_price(self.cell_of(e));
        }
        sum
    }

    // What the labelling costs on the sheet.
    pub(crate) fn price(&self) -> i64
        ensures { (result ≡ price_of (instance_of self.now.sheet.now.bytes.now) self.now.x.now) × (unsigned_abs result ≤ 320_000_000) }
    {
        self.node_part() + self.edge_part()
    }
}
