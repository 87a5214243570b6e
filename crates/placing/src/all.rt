// All nodes placed one by one, or nodes that cannot all be.
ghost use Rattle.std.specs.Prelude.{◌≡◌, ℕ, ◌<◌, MatchResult};
ghost use Rattle.placing.specs.Words.{entry, Seated, Blocked, rows_of, caught};

use crate::search::Steps;
use crate::seats::Seats;

// A node for which there is no label, the labels that the search for one saw, and the labels that the nodes take.
#[derive(Clone, Copy)]
pub(crate) struct Unplaced {
    pub root: usize,
    pub seen: u64,
    pub taken: [u8; 64],
}

impl<'a> Seats<'a> {
    // Places the nodes in order: those that have 255 there, the others by chains.
    pub(crate) fn place_all(&mut self) -> Result<(), Unplaced>
        requires { (u : ℕ) → u < 64 → entry self.old.taken u ≡ 255 }
        ensures same { self.new.nodes.now ≡ self.old.nodes.now }
        ensures answer { MatchResult result (λ _. Seated self.old.nodes.now.own 0 self.old.nodes.now.count self.new.taken)
            (λ no. Blocked (rows_of self.old.nodes.now.count self.old.nodes.now.sets self.old.nodes.now.own) (caught no.root no.seen no.taken)) }
    {
        let mut steps = Steps::new();
        for u in 0..self.nodes.count {
            let vanishes = self.nodes.own[u];
            if vanishes {
                continue;
            }
            if let Err(seen) = self.chain(self.nodes.sets[u], 0, self.free, u, &mut steps) {
                return Err(Unplaced {
                    root: u,
                    seen,
                    taken: self.taken,
                });
            }
        }
        Ok(())
    }
}
