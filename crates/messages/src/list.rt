// A list of records, run one by one up to the first that is refused.
ghost use Rattle.std.specs.Prelude.{◌≡◌, ◌%◌, length, IfOk};
ghost use Rattle.instance.specs.Refusal.{refused_in};
ghost use Rattle.rules.specs.Run.{run_list};
ghost use Rattle.rules.specs.Calls.{cost_limit, run_of, run_refusal};
ghost use Rattle.messages.specs.Lent.{lent, lent_of};
ghost use Rattle.messages.specs.State.{Same, instance_in, limit_in, buffers_in};
ghost use Rattle.messages.specs.Answers.{ran_as};

use crate::answers::Answer;
use crate::lent::{Lent, check_lent};
use crate::limit::{COST_LIMIT, Limit};
use crate::running::Run;
use crate::state::State;
use instance::{Refusal, Sheet};

impl State<'_> {
    // The records of whole groups of five bytes.
    fn run_all(&mut self, records: &[u8]) -> Answer
        requires whole { length records.now % 5 ≡ 0 }
        ensures same { Same self.old self.new }
        ensures ran { ran_as (buffers_in self.new) result ≡ run_list (instance_in self.old) (limit_in self.old) (buffers_in self.old) records.now }
    {
        let (all, _) = records.as_chunks::<5>();
        let mut stuck = 0;
        for (done, bytes) in all.iter().enumerate() {
            match self.one_record(bytes) {
                Ok(rounding) => stuck += rounding,
                Err(refusal) => {
                    return Answer {
                        done,
                        stuck,
                        refusal: Some(refusal),
                    };
                }
            }
        }
        Answer {
            done: all.len(),
            stuck,
            refusal: None,
        }
    }
}

// What a run goes by, or why it is refused before its first record.
fn start<'a>(sheet: &'a [u8], limit: Limit, records: &[u8], lent: Lent) -> Result<Run<'a>, Refusal>
    ensures refusal { refused_in result ≡ run_refusal sheet.now limit.most (lent_of lent.entry) records.now }
    ensures same { IfOk result (λ r. (r.sheet.bytes ≡ sheet.entry) × (r.limit.most ≡ limit.most)) }
{
    let sheet = Sheet::read(sheet)?;
    check_lent(&sheet, limit, lent)?;
    if records.len() % 5 != 0 {
        return Err(Refusal::PartialRecord);
    }
    Ok(Run { sheet, limit })
}

// Runs a list of records. Refused as a whole it writes nothing; stopped at a record, it leaves what the records before it made.
// Kept: the buffers one by one, as C lends them to the calls that wrap this one; `Trace` and `Whole` speak of these arguments.
pub fn run(
    sheet: &[u8],
    records: &[u8],
    nodes: &mut [i64],
    labels: &mut [i64],
    edges: &mut [i64],
    incumbent: &mut [u8],
) -> Answer
    ensures { ran_as (lent nodes.new labels.new edges.new incumbent.new) result ≡ run_of sheet.now cost_limit (lent nodes.old labels.old edges.old incumbent.old) records.now }
{
    let lent = Lent {
        nodes,
        labels,
        edges,
        incumbent,
    };
    match start(sheet, COST_LIMIT, records, lent) {
        Ok(begun) => {
            let mut state = State {
                run: &begun,
                nodes,
                labels,
                edges,
                incumbent,
                known: None,
                holders: None,
                lowers: None,
            };
            state.run_all(records)
        }
        Err(refusal) => Answer {
            done: 0,
            stuck: 0,
            refusal: Some(refusal),
        },
    }
}
