// Records between a node and its edges: kinds 1 and 2. The edges stand in an index by the end that the node is at.
// Kept: each asks that its node is below 64, as `Index::row` does, and is given the node and the writer one by one; a type for a node, or for both, would be made at each turn of the sweeps.
ghost use Rattle.std.specs.Prelude.{◌≤◌, ◌<◌, ◌+◌};
ghost use Rattle.index.specs.Index.{many};
ghost use Rattle.schedule.specs.Writing.{Wrote, Room, received, sent, passed};

use crate::writer::{Kind, Writer};
use index::Index;

// Kind 2 with share 1 from each edge of node `u`.
fn from_edges(edges: &Index, u: usize, w: &mut Writer)
    requires u_bound { u < 64 }
    requires room { Room w.old (many edges.now u) }
    ensures { Wrote w.old (received edges.now u) w.new }
{
    for edge in edges.row(u) {
        // Kept: a node is below 64; `try_from` would add a case that cannot happen.
        w.put(Kind::FromEdge, u as u8, *edge, 1);
    }
}

// Kind 1 to each of them, with shares that fall from the number of edges plus `more`.
// Kept: `more`, 0 or 1, is a number that is added.
fn to_edges(edges: &Index, u: usize, more: usize, w: &mut Writer)
    requires u_bound { (u < 64) × (more ≤ 1) }
    requires room { Room w.old (many edges.now u) }
    ensures { Wrote w.old (sent edges.now more u) w.new }
{
    let row = edges.row(u);
    let first = row.len() + more;
    for (j, edge) in row.iter().enumerate() {
        let share = first - j;
        // Kept: a node is below 64 and a share at most 65; `try_from` would add a case that cannot happen.
        w.put(Kind::ToEdge, u as u8, *edge, share as u8);
    }
}

// Node `u` in a sweep that comes from the edges of one index and goes on to those of the other.
pub(crate) fn pass(from: &Index, to: &Index, u: usize, more: usize, w: &mut Writer)
    requires u_bound { (u < 64) × (more ≤ 1) }
    requires room { Room w.old (many from.now u + many to.now u) }
    ensures { Wrote w.old (passed from.now to.now more u) w.new }
{
    from_edges(from, u, w);
    to_edges(to, u, more, w);
}
