// Placing all nodes.
// Kept: C is answered a refusal's number.
ghost use Rattle.placing.specs.Placing.{Placed};

use crate::storing::code;
use placing::place;

// Writes the position of each node in the smallest matching into `out`, of exactly n places; answers the refusal. Where no
// matching exists, 16, it writes 1 for each member of a small set of nodes that has too few labels, and 0 for the rest.
#[unsafe(no_mangle)]
pub extern "C" fn cirbaldu_place(sheet: &[u8], out: &mut [u8]) -> u8
    ensures { Placed sheet.now out.old result out.new }
{
    code(place(sheet, out))
}
