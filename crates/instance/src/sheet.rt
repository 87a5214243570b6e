// A sheet that was read and not refused.
ghost use Rattle.std.specs.Prelude.{◌≡◌, ◌+◌, ◌*◌, ◌<◌, ◌≤◌, length};
ghost use Rattle.instance.specs.Bytes.{price_at};
ghost use Rattle.instance.specs.Sheet.{instance_of, refusal_of};
ghost use Rattle.instance.specs.Instance.{table_size};
ghost use Rattle.instance.specs.Layout.{Shows};
ghost use Rattle.instance.specs.Described.{Counts, Places, starts_of, tables_of, labels_of};

use crate::bytes::price;

// Its bytes, and what they hold, counted in cells. What stands here is what the bytes say: no other value of this type can be made.
#[derive(Clone, Copy)]
pub struct Sheet<'a> {
    pub bytes: &'a [u8],
    // n, L and E
    pub nodes: usize,
    pub labels: usize,
    pub edges: usize,
    // N and M
    pub positions: usize,
    pub cells: usize,
    // where the node prices, the edge ends and the edge prices stand
    pub prices: usize,
    pub ends: usize,
    pub edge_prices: usize,
    // where each node's cells begin, and each edge's table
    pub starts: [usize; 64],
    pub tables: [usize; 256],
    ghost readable: { refusal_of bytes.now ≡ 0 },
    ghost counted: { Counts bytes.now nodes labels edges positions cells },
    ghost placed: { Places bytes.now prices ends edge_prices },
    ghost begun: { starts ≡ starts_of bytes.now },
    ghost tabled: { tables ≡ tables_of bytes.now },
}

// Kept: a method asks that the node, edge or place is there, as an index into a slice does; a type for each would be made wherever a number is read.
// Kept: `low` and `high` are two methods, since every caller but one wants a certain end.
impl<'a> Sheet<'a> {
    // How many positions node `u` has.
    pub fn degree(&self, u: usize) -> usize
        requires { u < self.now.nodes }
        ensures { (result ≡ (instance_of self.now.bytes.now).degree u) × (1 ≤ result) × (result ≤ 16) }
    {
        usize::from(self.bytes[u])
    }

    // The labels of node `u`, a part of the sheet.
    pub fn labels_of(&self, u: usize) -> &'a [u8]
        requires { u < self.now.nodes }
        ensures { result.now ≡ labels_of self.now.bytes.now u }
    {
        let from = self.nodes + self.starts[u];
        &self.bytes[from..from + self.degree(u)]
    }

    // The label at a place, counted in cells.
    pub fn label(&self, place: usize) -> usize
        requires { place < self.now.positions }
        ensures { (result ≡ (instance_of self.now.bytes.now).label place) × (result < 256) }
    {
        usize::from(self.bytes[self.nodes + place])
    }

    // The lower end of edge `e`.
    pub fn low(&self, e: usize) -> usize
        requires { e < self.now.edges }
        ensures { (result ≡ (instance_of self.now.bytes.now).low e) × (result < self.now.nodes) }
    {
        usize::from(self.bytes[self.ends + 2 * e])
    }

    // The higher end of edge `e`.
    pub fn high(&self, e: usize) -> usize
        requires { e < self.now.edges }
        ensures { (result ≡ (instance_of self.now.bytes.now).high e) × (result < self.now.nodes) }
    {
        usize::from(self.bytes[self.ends + 2 * e + 1])
    }

    // How many cells edge `e` has.
    pub fn size(&self, e: usize) -> usize
        requires { e < self.now.edges }
        ensures { (result ≡ table_size (instance_of self.now.bytes.now) e) × (1 ≤ result) × (result ≤ 256) }
    {
        let low = self.low(e);
        let high = self.high(e);
        self.degree(low) * self.degree(high)
    }

    // The prices of edge `e`, a part of the sheet itself.
    pub fn prices_of(&self, e: usize) -> &'a [u8]
        requires { e < self.now.edges }
        ensures { Shows self.now.bytes e result }
    {
        let from = self.edge_prices + 4 * self.tables[e];
        &self.bytes[from..from + 4 * self.size(e)]
    }

    // A price among those that stand from `section` on.
    pub fn price_in(&self, section: usize, i: usize) -> i64
        requires { section + 4 * i + 4 ≤ length self.now.bytes.now }
        ensures { result ≡ price_at self.now.bytes.now (section + 4 * i) }
    {
        price(self.bytes, section + 4 * i)
    }

    // The price of a node's cell.
    #[tactic(auto, using(crate::proofs::Sheets::node_price_is))]
    pub fn node_price(&self, place: usize) -> i64
        requires { place < self.now.positions }
        ensures { result ≡ (instance_of self.now.bytes.now).node_price place }
    {
        self.price_in(self.prices, place)
    }

    // The price of an edge's cell.
    #[tactic(auto, using(crate::proofs::Sheets::edge_price_is))]
    pub fn edge_price(&self, cell: usize) -> i64
        requires { cell < self.now.cells }
        ensures { result ≡ (instance_of self.now.bytes.now).edge_price cell }
    {
        self.price_in(self.edge_prices, cell)
    }
}
