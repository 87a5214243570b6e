// Opening, running, reporting.
// Kept: C lends each of the four buffers by itself, and is answered a refusal's number.
ghost use Rattle.std.specs.Prelude.{◌≡◌, length};
ghost use Rattle.rules.specs.Calls.{open_of};
ghost use Rattle.messages.specs.Lent.{lent, opens};
ghost use Rattle.exports.specs.Stored.{answered};
ghost use Rattle.messages.specs.Answers.{reported_as};
ghost use Rattle.exports.specs.Moving.{outcome, ran_in, values_in, reported_in};

use crate::storing::{NONE, code, copy, refuse_length};
use instance::Sheet;
use messages::{Report, open, report, run};

// Fills the four buffers from the sheet; answers the refusal.
#[unsafe(no_mangle)]
pub extern "C" fn cirbaldu_open(
    sheet: &[u8],
    nodes: &mut [i64],
    labels: &mut [i64],
    edges: &mut [i64],
    incumbent: &mut [u8],
) -> u8
    ensures { opens (lent nodes.new labels.new edges.new incumbent.new) result ≡ open_of sheet.now (lent nodes.old labels.old edges.old incumbent.old) }
{
    code(open(sheet, nodes, labels, edges, incumbent))
}

// Runs a list of records; answers the refusal. `counts`, of two places, has the records done and the roundings stuck.
#[unsafe(no_mangle)]
#[tactic(auto, using(crate::proofs::AnswerLaws::ran_by, crate::proofs::AnswerLaws::ran_ill))]
pub extern "C" fn cirbaldu_run(
    sheet: &[u8],
    records: &[u8],
    nodes: &mut [i64],
    labels: &mut [i64],
    edges: &mut [i64],
    incumbent: &mut [u8],
    counts: &mut [u64],
) -> u8
    ensures { outcome (lent nodes.new labels.new edges.new incumbent.new) result counts.new ≡ ran_in sheet.now (lent nodes.old labels.old edges.old incumbent.old) records.now counts.old }
{
    if counts.len() != 2 {
        return refuse_length(Sheet::read(sheet));
    }
    let answer = run(sheet, records, nodes, labels, edges, incumbent);
    let both = [answer.done, answer.stuck];
    copy(&both, counts);
    match answer.refusal {
        Some(refusal) => u8::from(refusal),
        None => NONE,
    }
}

// The values of a report.
#[tactic(auto, unfolding(crate::specs::Moving::values_in))]
fn store_report(report: Report, values: &mut [i64])
    requires { length values.old ≡ 4 }
    ensures { values.new ≡ values_in values.old (reported_as (Ok report)) }
{
    let numbers = match report {
        Report::Bound(bound) => [0, bound, 0, 0],
        Report::Kept(bound, cost, gap) => [1, bound, cost, gap],
    };
    values.copy_from_slice(&numbers);
}

// Reports; answers the refusal. `values`, of four places, has 1 if a matching is kept, the bound, its cost and the gap, 0
// for what is absent. A refused report leaves it as it was.
#[unsafe(no_mangle)]
pub extern "C" fn cirbaldu_report(
    sheet: &[u8],
    nodes: &[i64],
    labels: &[i64],
    edges: &[i64],
    incumbent: &[u8],
    values: &mut [i64],
) -> u8
    ensures { answered result values.new ≡ reported_in sheet.now (lent nodes.now labels.now edges.now incumbent.now) values.old }
{
    if values.len() != 4 {
        return refuse_length(Sheet::read(sheet));
    }
    match report(sheet, nodes, labels, edges, incumbent) {
        Ok(told) => {
            store_report(told, values);
            NONE
        }
        Err(refusal) => u8::from(refusal),
    }
}
