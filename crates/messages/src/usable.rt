// The least usable cell of an edge. Document 02, wish 2.
ghost use Rattle.std.specs.Prelude.{◌≡◌, true};
ghost use Rattle.integers.specs.Least.{least_of};
ghost use Rattle.integers.specs.Sum.{Within};
ghost use Rattle.rules.specs.Calls.{cost_limit};
ghost use Rattle.messages.specs.EdgeMessage.{usable_cells, Ends};

use crate::clash::{clash, mask_of};
use crate::rows::{UNBOUNDED, least};

// The least usable cell of an edge's table: of the stretches between the unusable ones, which stand ever further on.
// Kept: that the costs are within the limit is asked for. They are cut from a buffer for this one call; a struct around them would be made and opened at each cut.
pub(crate) fn usable_least(cells: &[i64], low: &[u8], high: &[u8]) -> i64
    requires ends { Ends true low.now high.now cells.now }
    requires within { Within cost_limit cells.now }
    ensures { result ≡ least_of (usable_cells true low.now high.now cells.now) }
{
    let width = high.len();
    let mask = mask_of(high);
    let mut best = UNBOUNDED;
    let mut from = 0;
    for (k, label) in low.iter().enumerate() {
        if let Some(skip) = clash(high, mask, *label) {
            let to = k * width + skip;
            best = least(&cells[from..to], best);
            from = to + 1;
        }
    }
    least(&cells[from..], best)
}
