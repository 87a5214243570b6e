// What reading has found of a sheet so far, a type for each stage. Whoever has one knows that the checks up to there passed.
ghost use Rattle.std.specs.Prelude.{◌≡◌, ◌≤◌};
ghost use Rattle.instance.specs.Sheet.{node_prices_at, ends_at, edge_prices_at};
ghost use Rattle.instance.specs.Described.{starts_of};
ghost use Rattle.instance.specs.Passes.{degrees_in, ends_in, Counted, Begun, Laid, PassedTo};

// The trailer's counts: n, L and E.
#[derive(Clone, Copy)]
pub(crate) struct Counts<'a> {
    pub bytes: &'a [u8],
    pub nodes: usize,
    pub labels: usize,
    pub edges: usize,
    ghost counted: { Counted bytes.now nodes labels edges },
    ghost passed: { PassedTo bytes.now 4 },
}

// And N, with room for the edge ends behind the degrees. Where each node's cells begin is filled in beside it.
// Kept: the starts and the tables are no fields here. What a stage has found is handed on by value, and a call would copy them at each stage.
#[derive(Clone, Copy)]
pub(crate) struct Nodes<'a> {
    pub counts: Counts<'a>,
    pub positions: usize,
    ghost begun: { Begun counts.bytes.now counts.nodes counts.labels counts.edges (degrees_in counts.bytes.now positions) },
    ghost passed: { PassedTo counts.bytes.now 6 },
}

// And M; all sections are there, as long as they should be. Where each edge's table begins is filled in beside it.
#[derive(Clone, Copy)]
pub(crate) struct Edges<'a> {
    pub nodes: Nodes<'a>,
    pub cells: usize,
    ghost laid: { Laid nodes.counts.bytes.now nodes.counts.nodes nodes.counts.labels nodes.counts.edges (degrees_in nodes.counts.bytes.now nodes.positions) (ends_in nodes.counts.bytes.now cells) },
    ghost passed: { PassedTo nodes.counts.bytes.now 9 },
}

// And where each node's cells begin, as it was filled in: what the labels and the cells are tested by.
#[derive(Clone, Copy)]
pub(crate) struct Values<'a> {
    pub found: Edges<'a>,
    pub starts: &'a [usize; 64],
    ghost begun: { starts.now ≡ starts_of found.nodes.counts.bytes.now },
}

// Where the sections behind the labels begin.
impl<'a> Nodes<'a> {
    #[tactic(auto, using(crate::proofs::Stages::nodes_few, crate::proofs::Stages::positions_few, crate::proofs::Stages::prices_is))]
    pub(crate) fn prices_at(&self) -> usize
        ensures { (result ≡ node_prices_at self.now.counts.bytes.now) × (result ≤ 1_088) }
    {
        self.counts.nodes + self.positions
    }

    #[tactic(auto, using(crate::proofs::Stages::nodes_few, crate::proofs::Stages::positions_few, crate::proofs::Stages::ends_is))]
    pub(crate) fn ends_at(&self) -> usize
        ensures { (result ≡ ends_at self.now.counts.bytes.now) × (result ≤ 5_184) }
    {
        self.counts.nodes + 5 * self.positions
    }

    #[tactic(auto, using(crate::proofs::Stages::edges_few, crate::proofs::Stages::edge_prices_is))]
    pub(crate) fn edge_prices_at(&self) -> usize
        ensures { (result ≡ edge_prices_at self.now.counts.bytes.now) × (result ≤ 5_696) }
    {
        self.ends_at() + 2 * self.counts.edges
    }
}
