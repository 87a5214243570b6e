// A sheet that was read with buffers that are good for it: what a report goes by.
ghost use Rattle.std.specs.Prelude.{◌≡◌};
ghost use Rattle.rules.specs.Calls.{cost_limit, lent_refusal};
ghost use Rattle.messages.specs.Lent.{lent_of};

use crate::lent::Lent;
use instance::Sheet;

#[derive(Drop)]
pub(crate) struct Checked<'a> {
    pub sheet: &'a Sheet<'a>,
    pub lent: Lent<'a>,
    ghost good: { lent_refusal sheet.now.bytes.now cost_limit (lent_of lent) ≡ 0 },
}
