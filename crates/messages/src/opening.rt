// Opening: the four lent buffers filled from the sheet.
ghost use Rattle.std.specs.Prelude.{◌≡◌};
ghost use Rattle.instance.specs.Refusal.{refused_in};
ghost use Rattle.rules.specs.Calls.{open_of};
ghost use Rattle.messages.specs.Lent.{lent, opens};

use crate::filling::fill_prices;
use crate::lent::{Lent, lengths_agree};
use instance::{Refusal, Sheet};

// Fills the four buffers from the sheet: its prices, label costs of 0, and no matching. Refused where the sheet is or a length is wrong, and then nothing is written.
// Kept: the buffers one by one, as C lends them to the calls that wrap this one; `Trace` and `Whole` speak of these arguments.
pub fn open(
    sheet: &[u8],
    nodes: &mut [i64],
    labels: &mut [i64],
    edges: &mut [i64],
    incumbent: &mut [u8],
) -> Result<(), Refusal>
    ensures { opens (lent nodes.new labels.new edges.new incumbent.new) (refused_in result) ≡ open_of sheet.now (lent nodes.old labels.old edges.old incumbent.old) }
{
    let sheet = Sheet::read(sheet)?;
    let lent = Lent {
        nodes,
        labels,
        edges,
        incumbent,
    };
    if !lengths_agree(&sheet, lent) {
        return Err(Refusal::BufferLength);
    }
    fill_prices(&sheet, sheet.prices, nodes);
    labels.fill(0);
    fill_prices(&sheet, sheet.edge_prices, edges);
    // Kept: 255 is what the bytes that C lends have where no matching is kept.
    incumbent.fill(255);
    Ok(())
}
