// Reading, and showing an edge.
// Kept: C is answered a refusal's number.
ghost use Rattle.std.specs.Prelude.{◌≡◌, length, IfOk};
ghost use Rattle.instance.specs.Refusal.{number, refused_in};
ghost use Rattle.instance.specs.Layout.{refused_by, layout_of, edge_refusal_of};
ghost use Rattle.exports.specs.Stored.{answered};
ghost use Rattle.exports.specs.Reading.{read_in, numbers_of, span_of, shown_in};

use crate::storing::{NONE, code, copy, refuse_length};
use instance::{Refusal, Sheet};

// The numbers of a sheet: the refusal, which is none, the five counts, and then the node starts and the edge starts.
fn store_sheet(sheet: &Sheet, answer: &mut [u64])
    requires { length answer.old ≡ 326 }
    ensures { answer.new ≡ numbers_of (layout_of sheet.now.bytes.now) }
{
    let counts = [
        0,
        sheet.nodes,
        sheet.labels,
        sheet.edges,
        sheet.positions,
        sheet.cells,
    ];
    copy(&counts, &mut answer[..6]);
    copy(&sheet.starts, &mut answer[6..70]);
    copy(&sheet.tables, &mut answer[70..326]);
}

// The numbers of a refused sheet: the refusal, and 0 in all other places.
#[tactic(auto, unfolding(crate::specs::Reading::counts_of, crate::specs::Reading::numbers_of, instance::specs::Layout::refused_by))]
fn store_refusal(refusal: Refusal, answer: &mut [u64])
    requires { length answer.old ≡ 326 }
    ensures { answer.new ≡ numbers_of (refused_by (number refusal)) }
{
    answer.fill(0);
    answer[0] = u64::from(u8::from(refusal));
}

// Reads a sheet; answers the refusal. `answer`, of 326 places, has the refusal, n, L, E, N, M, the 64 node starts and the
// 256 edge starts.
#[unsafe(no_mangle)]
#[tactic(auto, using(crate::proofs::AnswerLaws::read_by, crate::proofs::AnswerLaws::read_ill, instance::proofs::LaidOut::refused_by_lem, instance::proofs::Told::numbered))]
pub extern "C" fn cirbaldu_read(sheet: &[u8], answer: &mut [u64]) -> u8
    ensures { answered result answer.new ≡ read_in sheet.now answer.old }
{
    let read = Sheet::read(sheet);
    if answer.len() != 326 {
        return refuse_length(read);
    }
    match read {
        Ok(sheet) => {
            store_sheet(&sheet, answer);
            NONE
        }
        Err(refusal) => {
            store_refusal(refusal, answer);
            u8::from(refusal)
        }
    }
}

// Where the prices of an edge begin in the sheet, and how many bytes they take; or why the edge is not shown.
// Kept: it computes what `Sheet::prices_of` does, as a part of a slice does not tell where it begins.
fn edge_span(sheet: &[u8], edge: usize) -> Result<[usize; 2], Refusal>
    ensures refusal { refused_in result ≡ edge_refusal_of sheet.now edge }
    ensures span { IfOk result (λ p. p ≡ span_of sheet.now edge) }
{
    let sheet = Sheet::with_edge(sheet, edge)?;
    let from = sheet.edge_prices + 4 * sheet.tables[edge];
    Ok([from, 4 * sheet.size(edge)])
}

// Shows an edge; answers the refusal. `span`, of two places, has where its prices begin in the sheet and how many bytes
// they take: 0 and 0 for an edge that is not shown.
#[unsafe(no_mangle)]
#[tactic(auto, using(crate::proofs::ShowLaws::shown_by, crate::proofs::ShowLaws::shown_ill, crate::proofs::ShowLaws::span_or))]
pub extern "C" fn cirbaldu_edge(sheet: &[u8], edge: usize, span: &mut [u64]) -> u8
    ensures { answered result span.new ≡ shown_in sheet.now edge span.old }
{
    let shown = edge_span(sheet, edge);
    if span.len() != 2 {
        return refuse_length(shown);
    }
    let place = shown.unwrap_or([0, 0]);
    copy(&place, span);
    code(shown)
}
