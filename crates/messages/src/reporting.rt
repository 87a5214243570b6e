// Reporting: the bound, and where a matching is kept its cost on the sheet and the gap.
ghost use Rattle.std.specs.Prelude.{◌≡◌, ◌*◌, ◌≤◌, unsigned_abs};
ghost use Rattle.rules.specs.Calls.{cost_limit, told, report_of};
ghost use Rattle.messages.specs.Lent.{lent, lent_of};
ghost use Rattle.messages.specs.Answers.{reported_as, against};

use crate::answers::Report;
use crate::bound::lower_bound;
use crate::checked::Checked;
use crate::incumbent::none_kept;
use crate::labelled::Labelled;
use crate::lent::{Lent, check_lent};
use crate::limit::COST_LIMIT;
use instance::{Refusal, Sheet};

// A bound beside the cost of what is kept: no bound may exceed it.
fn answer(bound: i64, cost: i64) -> Result<Report, Refusal>
    requires { (unsigned_abs bound ≤ 384 * cost_limit) × (unsigned_abs cost ≤ 320_000_000) }
    ensures { reported_as result ≡ against bound cost }
{
    if cost < bound {
        return Err(Refusal::BoundAboveCost);
    }
    Ok(Report::Kept(bound, cost, cost - bound))
}

// The report of what was found good.
fn tell(held: &Checked) -> Result<Report, Refusal>
    ensures { reported_as result ≡ told held.now.sheet.now.bytes.now (lent_of held.now.lent) }
{
    let bound = lower_bound(held);
    let incumbent = held.lent.incumbent;
    if none_kept(incumbent) {
        return Ok(Report::Bound(bound));
    }
    let kept = Labelled {
        sheet: held.sheet,
        x: incumbent,
    };
    answer(bound, kept.price())
}

// The bound, or the bound, the kept matching's cost and the gap. Refused where the sheet or what is lent is, or where the bound exceeds the cost.
// Kept: the buffers one by one, as C lends them to the calls that wrap this one; `Trace` and `Whole` speak of these arguments.
#[tactic(auto, using(crate::proofs::LentLaws::lent_unread, crate::proofs::ReportLaws::report_refused, crate::proofs::ReportLaws::report_told, instance::proofs::Told::numbered))]
pub fn report(
    sheet: &[u8],
    nodes: &[i64],
    labels: &[i64],
    edges: &[i64],
    incumbent: &[u8],
) -> Result<Report, Refusal>
    ensures { reported_as result ≡ report_of sheet.now cost_limit (lent nodes.now labels.now edges.now incumbent.now) }
{
    let sheet = Sheet::read(sheet)?;
    let lent = Lent {
        nodes,
        labels,
        edges,
        incumbent,
    };
    check_lent(&sheet, COST_LIMIT, lent)?;
    let held = Checked {
        sheet: &sheet,
        lent,
    };
    tell(&held)
}
