// The whole program on lent bytes.
ghost use Rattle.std.specs.Prelude.{◌≡◌, true};
ghost use Rattle.instance.specs.Sheet.{instance_of};
ghost use Rattle.rules.specs.Calls.{lengths_ok};
ghost use Rattle.messages.specs.Lent.{lent};
ghost use Rattle.console.specs.Output.{outputs, output_of};
ghost use Rattle.console.specs.Program.{printed};

use crate::printing::{compose, refusal_text};
use instance::{Refusal, Sheet};
use messages::{open, report, run};

// The most bytes of records: 8,192 records.
const MOST_BYTES: usize = 40_960;

// Opens, runs and reports in buffers of the sheet's own lengths.
// Kept: the buffers one by one, as the three calls are lent them.
fn answer_in(
    sheet: &[u8],
    records: &[u8],
    nodes: &mut [i64],
    labels: &mut [i64],
    edges: &mut [i64],
    incumbent: &mut [u8],
    out: &mut [u8],
) -> usize
    requires { lengths_ok (instance_of sheet.now) (lent nodes.old labels.old edges.old incumbent.old) ≡ true }
    ensures { outputs out.new result ≡ output_of (printed sheet.now records.now) out.old }
{
    if let Err(refusal) = open(sheet, nodes, labels, edges, incumbent) {
        return refusal_text(u8::from(refusal), out);
    }
    if MOST_BYTES < records.len() {
        return refusal_text(u8::from(Refusal::PartialRecord), out);
    }
    let ran = run(sheet, records, nodes, labels, edges, incumbent);
    let told = report(sheet, nodes, labels, edges, incumbent);
    compose(ran, told, out)
}

// The answer of a sheet that was read.
fn answer_of(sheet: &Sheet, records: &[u8], out: &mut [u8]) -> usize
    ensures { outputs out.new result ≡ output_of (printed sheet.now.bytes.now records.now) out.old }
{
    let mut nodes = [0i64; 1_024];
    let mut labels = [0i64; 1_024];
    let mut edges = [0i64; 4_096];
    let mut incumbent = [0u8; 64];
    answer_in(
        sheet.bytes,
        records,
        &mut nodes[..sheet.positions],
        &mut labels[..sheet.positions],
        &mut edges[..sheet.cells],
        &mut incumbent[..sheet.nodes],
        out,
    )
}

// Puts what the program prints at the start of out, and answers how many bytes that is; in a buffer of fewer than 256
// bytes nothing, and 0.
#[tactic(auto, using(crate::proofs::ProgramLaws::printed_refused, crate::proofs::WritingLaws::out_as))]
pub fn answer(sheet: &[u8], records: &[u8], out: &mut [u8]) -> usize
    ensures { outputs out.new result ≡ output_of (printed sheet.now records.now) out.old }
{
    match Sheet::read(sheet) {
        Ok(sheet) => answer_of(&sheet, records, out),
        Err(refusal) => refusal_text(u8::from(refusal), out),
    }
}
