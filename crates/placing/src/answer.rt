// The public call, and what it writes out: the positions of a placing, or the members of a set.
ghost use Rattle.std.specs.Prelude.{◌≡◌, cond, ℕ, ◌≤◌, ◌<◌, length};
ghost use Rattle.integers.specs.Places.{tabulate};
ghost use Rattle.instance.specs.Refusal.{refused_in};
ghost use Rattle.placing.specs.Words.{entry, below, rank, caught};
ghost use Rattle.placing.specs.Placing.{Placed};

use crate::all::Unplaced;
use crate::smallest::smallest;
use crate::tables::{Nodes, lay_words};
use crate::words::has;
use instance::{Refusal, Sheet};

// The labels below one.
#[tactic(auto, using(integers::proofs::Words::one_shifted), unfolding(crate::specs::Words::below))]
fn labels_below(label: u8) -> u64
    ensures { result ≡ below label }
{
    if label < 64 {
        (1u64 << label) - 1
    } else {
        u64::MAX
    }
}

// How many labels of a word are below one.
#[tactic(auto, unfolding(crate::specs::Words::rank))]
pub(crate) fn rank_of(word: u64, label: u8) -> u8
    requires { rank word label < 256 }
    ensures { result ≡ rank word label }
{
    let mask = labels_below(label);
    // Kept: at most 64; `try_from` would add a case that cannot happen.
    u64::count_ones(word & mask) as u8
}

// The position of each node: how many of its labels are below the one that it takes.
pub(crate) fn write_positions(nodes: &Nodes, taken: &[u8; 64], out: &mut [u8])
    requires { (length out.old ≤ 64) × ((u : ℕ) → u < length out.old → rank (entry nodes.now.sets u) (entry taken.now u) < 16) }
    ensures { out.new ≡ tabulate (length out.old) (λ u. rank (entry nodes.now.sets u) (entry taken.now u)) }
{
    // Kept: by place, as nothing is known of what is written through a `zip` of `iter_mut`.
    for (u, position) in out.iter_mut().enumerate() {
        *position = rank_of(nodes.sets[u], taken[u]);
    }
}

// 1 for the root and for each node below it that takes a label seen, and 0 for the rest.
fn write_members(unplaced: &Unplaced, out: &mut [u8])
    requires { length out.old ≤ 64 }
    ensures { out.new ≡ tabulate (length out.old) (λ u. cond (caught unplaced.now.root unplaced.now.seen unplaced.now.taken u) 1 0) }
{
    let root = unplaced.root;
    for (node, byte) in out.iter_mut().enumerate() {
        let label = unplaced.taken[node];
        let member = (node == root) | ((node < root) & has(unplaced.seen, label));
        *byte = u8::from(member);
    }
}

// Places all nodes of a sheet: the smallest matching, by positions from node 0 on. Refused with 16 where there is none, and then, alone among refusals, `out` is written:
// 1 for each member of a small set of nodes that has too few labels, and 0 for the rest.
pub fn place(sheet: &[u8], out: &mut [u8]) -> Result<(), Refusal>
    ensures { Placed sheet.now out.old (refused_in result) out.new }
{
    let sheet = Sheet::read(sheet)?;
    if out.len() != sheet.nodes {
        return Err(Refusal::BufferLength);
    }
    let nodes = lay_words(&sheet);
    match smallest(&nodes) {
        Ok(taken) => {
            write_positions(&nodes, &taken, out);
            Ok(())
        }
        Err(unplaced) => {
            write_members(&unplaced, out);
            Err(Refusal::NoMatching)
        }
    }
}
