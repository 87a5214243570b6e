// Writing a sweep.
// Kept: C gives the direction as a byte, and is answered a refusal's number.
ghost use Rattle.std.specs.Prelude.{◌≡◌};
ghost use Rattle.schedule.specs.Written.{written, sweep_of};

use crate::storing::code;
use schedule::write_sweep;

// Writes the forward (0) or the backward (1) sweep into `out`, of exactly its length; answers the refusal: the sheet's, then 12
// for another direction, then 8 for another length.
#[unsafe(no_mangle)]
pub extern "C" fn cirbaldu_sweep(sheet: &[u8], direction: u8, out: &mut [u8]) -> u8
    ensures { written out.new result ≡ sweep_of sheet.now direction out.old }
{
    code(write_sweep(sheet, direction, out))
}
