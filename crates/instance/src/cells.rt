// Whether each edge has a usable cell. Document 02, wish 2.
ghost use Rattle.std.specs.Prelude.{◌≡◌, ◌<◌, not, nat_lt};
ghost use Rattle.integers.specs.Checks.{below};
ghost use Rattle.instance.specs.Bytes.{byte};
ghost use Rattle.instance.specs.Instance.{first};
ghost use Rattle.instance.specs.Sheet.{instance_of, none_usable, usable_ok};
ghost use Rattle.instance.specs.Passes.{UsableAsked};

use crate::labels::usable;

// A sheet whose degrees, ends and labels are in order: where the ends stand, and where each node's labels begin.
#[derive(Clone, Copy)]
pub(crate) struct Cells<'a> {
    pub bytes: &'a [u8],
    pub nodes: usize,
    pub at: usize,
    pub edges: usize,
    pub starts: &'a [usize; 64],
    ghost asked: { UsableAsked bytes.now nodes at starts.now },
    ghost all: { edges ≡ (instance_of bytes.now).edge_count },
}

impl<'a> Cells<'a> {
    // The first label of node `u`.
    #[tactic(auto, using(crate::proofs::UsableCells::first_inside, crate::proofs::UsableCells::first_is))]
    fn first_label(&self, u: usize) -> usize
        requires { u < self.now.nodes }
        ensures { result ≡ (instance_of self.now.bytes.now).label (first (instance_of self.now.bytes.now) u) }
    {
        usize::from(self.bytes[self.nodes + self.starts[u]])
    }

    // Whether edge `e` has one. Of an end with two labels one is not the other end's first, so that only two ends of one label each may have none.
    fn edge_usable(&self, e: usize) -> bool
        requires { e < self.now.edges }
        ensures { result ≡ not (none_usable self.now.bytes.now e) }
    {
        let u = usize::from(self.bytes[self.at + 2 * e]);
        let v = usize::from(self.bytes[self.at + 2 * e + 1]);
        if 1 < self.bytes[u] {
            return true;
        }
        if 1 < self.bytes[v] {
            return true;
        }
        usable(self.first_label(u), self.first_label(v))
    }

    // Whether each does.
    fn each_usable(&self) -> bool
        ensures { result ≡ usable_ok self.now.bytes.now }
    {
        (0..self.edges).all(|e| self.edge_usable(e))
    }

    // Whether each node has two labels or more.
    fn none_single(&self) -> bool
        ensures { result ≡ below (instance_of self.now.bytes.now).node_count (λ u. nat_lt 1 (byte self.now.bytes.now u)) }
    {
        self.bytes[..self.nodes].iter().all(|degree| 1 < *degree)
    }

    // Whether each edge has a usable cell, at once if each node has two labels.
    pub(crate) fn edges_usable(&self) -> bool
        ensures { result ≡ usable_ok self.now.bytes.now }
    {
        self.none_single() || self.each_usable()
    }
}
