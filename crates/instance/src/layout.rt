// What a sheet holds, by itself: for a caller that lets the bytes go, or that wants the numbers of a refused sheet too.
ghost use Rattle.std.specs.Prelude.{◌≡◌};
ghost use Rattle.instance.specs.Refusal.{number};
ghost use Rattle.instance.specs.Layout.{edge_refusal_in, layout_of, refused_by};

use crate::refusal::Refusal;
use crate::sheet::Sheet;

// Counted in cells; all of it 0 but the refusal's number when the sheet is refused.
#[derive(Clone, Copy)]
pub struct Layout {
    // the refusal's number, 0 for none
    // Kept: a number, since all of a sheet that was refused is 0 but this.
    pub refusal: u8,
    // n, L and E
    pub nodes: usize,
    pub labels: usize,
    pub edges: usize,
    // N and M
    pub positions: usize,
    pub cells: usize,
    // where each node's cells begin, and each edge's table
    pub starts: [usize; 64],
    pub tables: [usize; 256],
}

#[tactic(auto, unfolding(crate::specs::Layout::refused_by))]
fn refused(refusal: Refusal) -> Layout
    ensures { result ≡ refused_by (number refusal) }
{
    Layout {
        refusal: u8::from(refusal),
        nodes: 0,
        labels: 0,
        edges: 0,
        positions: 0,
        cells: 0,
        starts: [0; 64],
        tables: [0; 256],
    }
}

impl Sheet<'_> {
    // What it holds, without its bytes.
    #[tactic(auto, using(crate::proofs::LaidOut::described_by))]
    pub fn layout(&self) -> Layout
        ensures { result ≡ layout_of self.now.bytes.now }
    {
        Layout {
            refusal: 0,
            nodes: self.nodes,
            labels: self.labels,
            edges: self.edges,
            positions: self.positions,
            cells: self.cells,
            starts: self.starts,
            tables: self.tables,
        }
    }
}

// Reads a sheet: what it holds, or the number of its refusal and 0 in all other places.
#[tactic(auto, using(crate::proofs::LaidOut::refused_by_lem, crate::proofs::Told::numbered))]
pub fn read(bytes: &[u8]) -> Layout
    ensures { result ≡ layout_of bytes.now }
{
    match Sheet::read(bytes) {
        Ok(sheet) => sheet.layout(),
        Err(refusal) => refused(refusal),
    }
}

// Why an edge is not shown, by what reading answered: 1 to 7 or 15 for the sheet, 12 for an edge that does not exist, else 0.
// Kept: a number, as a layout has one.
#[tactic(auto, unfolding(crate::specs::Layout::edge_refusal_in))]
pub fn edge_refusal_in(layout: Layout, edge: usize) -> u8
    ensures { result ≡ edge_refusal_in layout edge }
{
    if layout.refusal != 0 {
        return layout.refusal;
    }
    if edge < layout.edges {
        0
    } else {
        u8::from(Refusal::NoSuchRecord)
    }
}
