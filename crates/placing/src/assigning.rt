// The matching with the least sum of node costs. Document 02, wish 6.
ghost use Rattle.std.specs.Prelude.{◌≡◌, false, ℕ, ◌^◌, ◌<◌, length, slice_index};
ghost use Rattle.integers.specs.Places.{tabulate};
ghost use Rattle.integers.specs.Sum.{Within};
ghost use Rattle.integers.specs.Words.{bit};
ghost use Rattle.instance.specs.Sheet.{instance_of};
ghost use Rattle.rules.specs.Assigned.{assignment};
ghost use Rattle.assignment.specs.First.{First};
ghost use Rattle.placing.specs.Words.{entry, rank, Full, Seated, Holds};
ghost use Rattle.placing.specs.Assigning.{node_costs, rounded_by, Seatable};

use crate::answer::write_positions;
use crate::offers::Offers;
use crate::seats::Seats;
use crate::tables::{Nodes, lay_words};
use crate::tight::unpriced;
use instance::Sheet;

// A sheet with a cost for each place: none past 2^40.
#[derive(Drop)]
pub struct Costed<'a> {
    pub sheet: &'a Sheet<'a>,
    pub costs: &'a [i64],
    ghost fit: { (length costs.now ≡ sheet.now.positions) × Within (2 ^ 40) costs.now },
}

impl<'a> Seats<'a> {
    // The nodes, none of which takes a label, take those of a table.
    fn seat_all(&mut self, taken: &[u8; 64])
        requires fresh { (u : ℕ) → u < 64 → entry self.old.taken u ≡ 255 }
        requires seatable { Seatable self.old.nodes.now.count self.old.nodes.now.sets taken.now }
        ensures same { self.new.nodes.now ≡ self.old.nodes.now }
        ensures taken { self.new.taken ≡ taken.now }
    {
        for u in 0..self.nodes.count {
            let label = taken[u];
            if label < 64 {
                self.give(u, label);
            }
        }
    }
}

// Of the placings on tight cells that take each label that is not of `idle`, the smallest; `taken` is one of them.
fn smallest_full(tight: &Nodes, taken: &[u8; 64], idle: u64) -> [u8; 64]
    requires seatable { Seatable tight.now.count tight.now.sets taken.now }
    requires seated { Seated tight.now.own 64 tight.now.count taken.now }
    requires filled { (l : ℕ) → l < 64 → bit idle l ≡ false → Holds taken.now l }
    ensures { First (Full tight.now.count tight.now.sets tight.now.own idle) tight.now.count (entry result) }
{
    let mut seats = Seats::new(tight);
    seats.seat_all(taken);
    seats.lower_all(idle);
    seats.taken
}

// The nodes' positions, and 0 in the unused places.
fn positions(nodes: &Nodes, taken: &[u8; 64]) -> [u8; 64]
    requires { (u : ℕ) → u < nodes.now.count → rank (entry nodes.now.sets u) (entry taken.now u) < 16 }
    ensures { result ≡ tabulate 64 (λ k. slice_index (tabulate nodes.now.count (λ u. rank (entry nodes.now.sets u) (entry taken.now u))) k) }
{
    let mut x = [0; 64];
    write_positions(nodes, taken, &mut x[..nodes.count]);
    x
}

// The matching with the least sum of the costs, edges and label costs ignored; of equals the smallest by positions from node 0 on. None where there is no matching.
pub fn cheapest(costed: &Costed) -> Option<[u8; 64]>
    ensures { result ≡ rounded_by (assignment (instance_of costed.now.sheet.now.bytes.now) (node_costs costed.now.costs.now)) }
{
    let nodes = lay_words(costed.sheet);
    let offers = Offers {
        sheet: costed.sheet,
        costs: costed.costs,
        nodes: &nodes,
    };
    let mut seats = Seats::new(&nodes);
    let prices = seats.assign_all(&offers)?;
    let tight = offers.tight(&seats.taken, &prices);
    let taken = smallest_full(&tight, &seats.taken, unpriced(&prices));
    Some(positions(&nodes, &taken))
}
