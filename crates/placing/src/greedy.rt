// Each node in turn at its lowest free label.
ghost use Rattle.std.specs.Prelude.{IfSome};
ghost use Rattle.assignment.specs.First.{First};
ghost use Rattle.placing.specs.Words.{entry, All};

use crate::tables::Nodes;
use crate::words::{bit_of, lowest};

// Lets the nodes take, in order, each its lowest label that those below it leave free, or 255. Where each finds one, that is the smallest placing.
pub(crate) fn take_first(nodes: &Nodes) -> Option<[u8; 64]>
    ensures { IfSome result (λ taken. First (All nodes.now.count nodes.now.sets nodes.now.own) nodes.now.count (entry taken)) }
{
    let mut taken = [0; 64];
    let mut free = u64::MAX;
    for u in 0..nodes.count {
        let open = nodes.sets[u] & free;
        if open != 0 {
            let l = lowest(open);
            taken[u] = l;
            free ^= bit_of(l);
        } else if nodes.own[u] {
            // Kept: 255, as in `Seats`.
            taken[u] = 255;
        } else {
            return None;
        }
    }
    Some(taken)
}
