// What the nodes of a sheet pay at their positions.
ghost use Rattle.std.specs.Prelude.{◌≡◌, true, ◌^◌, ◌<◌, length};
ghost use Rattle.integers.specs.Sum.{Within};
ghost use Rattle.instance.specs.Sheet.{instance_of};
ghost use Rattle.placing.specs.Words.{opens};
ghost use Rattle.placing.specs.Listed.{Listed};

use crate::answer::rank_of;
use crate::tables::Nodes;
use instance::Sheet;

// A sheet's nodes, and what each pays at its positions: no cost past 2^40.
#[derive(Drop)]
pub(crate) struct Offers<'a> {
    pub sheet: &'a Sheet<'a>,
    pub costs: &'a [i64],
    pub nodes: &'a Nodes,
    ghost counted: { nodes.now.count ≡ sheet.now.nodes },
    ghost listed: { Listed (instance_of sheet.now.bytes.now) sheet.now.nodes nodes.now.sets nodes.now.own },
    ghost fit: { (length costs.now ≡ sheet.now.positions) × Within (2 ^ 40) costs.now },
}

impl<'a> Offers<'a> {
    ghost use Rattle.placing.specs.Priced.{cost_at};

    // What node `u` pays for its label `l`.
    pub(crate) fn cost(&self, u: usize, l: u8) -> i64
        requires { (u < self.now.nodes.now.count) × (opens self.now.nodes.now.sets self.now.nodes.now.own u l ≡ true) }
        ensures { result ≡ cost_at (instance_of self.now.sheet.now.bytes.now) self.now.nodes.now.sets self.now.costs.now u l }
    {
        let k = usize::from(rank_of(self.nodes.sets[u], l));
        self.costs[self.sheet.starts[u] + k]
    }
}
