// The direction that an argument names, and the sweep at the start of a buffer.
ghost use Rattle.std.specs.Prelude.{◌≡◌, [], length, MatchResult};
ghost use Rattle.instance.specs.Refusal.{number};
ghost use Rattle.sweep.specs.Swept.{direction_of, Sweeps};

use instance::Refusal;
use schedule::{sweep_length, write_sweep};

// A text that is neither "0" nor "1" names none: 2, which a sweep refuses once the sheet passes.
// Kept: the byte that `write_sweep` takes. An `Option` would have the sheet's refusals come first here once more.
#[tactic(auto, unfolding(crate::specs::Swept::direction_of))]
pub(crate) fn direction_of(text: &[u8]) -> u8
    ensures { result ≡ direction_of text.now }
{
    match text {
        [b'0'] => 0,
        [b'1'] => 1,
        _ => 2,
    }
}

// Writes a sweep at the start of a buffer that has room for the longest one, of 1,537 records; or the refusal.
// Kept: the direction is the byte that `write_sweep` takes.
pub(crate) fn sweep_at_start<'a>(
    sheet: &[u8],
    direction: u8,
    out: &'a mut [u8],
) -> Result<&'a [u8], Refusal>
    requires { length out.old ≡ 7_685 }
    ensures { MatchResult result (λ list. Sweeps sheet.now direction list.now 0 (length list.now)) (λ refusal. Sweeps sheet.now direction [] (number refusal) 0) }
{
    let list = &mut out[..sweep_length(sheet)];
    write_sweep(sheet, direction, list)?;
    Ok(list)
}
