// The smallest placing, or nodes that cannot all be placed.
ghost use Rattle.std.specs.Prelude.{MatchResult};
ghost use Rattle.assignment.specs.First.{First};
ghost use Rattle.placing.specs.Words.{entry, All, Blocked, rows_of, caught};

use crate::all::Unplaced;
use crate::greedy::take_first;
use crate::seats::Seats;
use crate::tables::Nodes;

// Where each node finds a label that those below it leave free, that is the smallest placing at once. Else nodes are placed by chains, and then moved down as far as can be.
pub(crate) fn smallest(nodes: &Nodes) -> Result<[u8; 64], Unplaced>
    ensures { MatchResult result (λ taken. First (All nodes.now.count nodes.now.sets nodes.now.own) nodes.now.count (entry taken))
        (λ no. Blocked (rows_of nodes.now.count nodes.now.sets nodes.now.own) (caught no.root no.seen no.taken)) }
{
    if let Some(taken) = take_first(nodes) {
        return Ok(taken);
    }
    let mut seats = Seats::new(nodes);
    seats.place_all()?;
    seats.lower_all(u64::MAX);
    Ok(seats.taken)
}
