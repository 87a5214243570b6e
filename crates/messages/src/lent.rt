// What is lent: the four buffers, and the refusals of their lengths, of the costs and of the incumbent.
ghost use Rattle.std.specs.Prelude.{◌≡◌, ◌&&◌, ◌==◌, length};
ghost use Rattle.integers.specs.Places.{every};
ghost use Rattle.integers.specs.Checks.{within};
ghost use Rattle.instance.specs.Refusal.{refused_in};
ghost use Rattle.instance.specs.Sheet.{instance_of};
ghost use Rattle.rules.specs.Calls.{incumbent_ok, lent_refusal};
ghost use Rattle.messages.specs.Lent.{lent_of};

use crate::incumbent::{all_none, is_matching};
use crate::limit::Limit;
use crate::rows::all_in_range;
use instance::{Refusal, Sheet};

// The four lent buffers, to read.
#[derive(Clone, Copy)]
pub(crate) struct Lent<'a> {
    pub nodes: &'a [i64],
    pub labels: &'a [i64],
    pub edges: &'a [i64],
    pub incumbent: &'a [u8],
}

// Whether the four lengths are what they should be.
pub(crate) fn lengths_agree(sheet: &Sheet, lent: Lent) -> bool
    ensures { result ≡ (length lent.entry.nodes.now == sheet.now.positions && length lent.entry.labels.now == sheet.now.positions && length lent.entry.edges.now == sheet.now.cells && length lent.entry.incumbent.now == sheet.now.nodes) }
{
    lent.nodes.len() == sheet.positions
        && lent.labels.len() == sheet.positions
        && lent.edges.len() == sheet.cells
        && lent.incumbent.len() == sheet.nodes
}

// Whether each lent cost lies within the limit.
fn costs_ok(lent: Lent, limit: Limit) -> bool
    ensures { result ≡ (every (within limit.most) lent.entry.nodes.now && every (within limit.most) lent.entry.labels.now && every (within limit.most) lent.entry.edges.now) }
{
    all_in_range(lent.nodes, limit)
        && all_in_range(lent.labels, limit)
        && all_in_range(lent.edges, limit)
}

// Whether the kept bytes are none or a matching.
#[tactic(auto, using(crate::proofs::LentLaws::incumbent_none, crate::proofs::LentLaws::incumbent_some))]
fn incumbent_ok(sheet: &Sheet, x: &[u8]) -> bool
    requires { length x.now ≡ sheet.now.nodes }
    ensures { result ≡ incumbent_ok (instance_of sheet.now.bytes.now) x.now }
{
    all_none(x) || is_matching(sheet, x)
}

// The first refusal of what is lent with a sheet that was read.
// Kept: the limit beside what is lent, here, in `costs_ok` and in `start`: it is the call's, and no fact of the buffers.
pub(crate) fn check_lent(sheet: &Sheet, limit: Limit, lent: Lent) -> Result<(), Refusal>
    ensures { refused_in result ≡ lent_refusal sheet.now.bytes.now limit.most (lent_of lent.entry) }
{
    if !lengths_agree(sheet, lent) {
        return Err(Refusal::BufferLength);
    }
    if !costs_ok(lent, limit) {
        return Err(Refusal::CostRange);
    }
    if !incumbent_ok(sheet, lent.incumbent) {
        return Err(Refusal::BadIncumbent);
    }
    Ok(())
}
