// Records of kinds 1 and 2: messages between a node and an edge that it ends. Document 01, kinds 1 and 2.
ghost use Rattle.std.specs.Prelude.{◌≡◌};
ghost use Rattle.instance.specs.Refusal.{refused_in};
ghost use Rattle.instance.specs.Sheet.{instance_of};
ghost use Rattle.messages.specs.EdgeRecord.{edge_move, edge_moved, EdgeLegal};
ghost use Rattle.messages.specs.Records.{to_node};

use crate::amounts::Amounts;
use crate::edge_message::{Joint, move_cells, take_line};
use crate::end::End;
use crate::limit::Limit;
use crate::records::{Flow, Record};
use crate::share::Share;
use instance::{Refusal, Sheet};

// A record of kind 1 between its node and its edge, or, turned round, of kind 2: the amounts, the tests, and then the writes.
// Kept: that the record exists is asked for, once: its one caller has just tested it.
// Kept: over the two buffers: a method would have to show what a `State` promises by itself, which the record's own method has from the law of all records.
pub(crate) fn move_edge(
    sheet: &Sheet,
    limit: Limit,
    nodes: &mut [i64],
    edges: &mut [i64],
    flow: Flow,
    step: Record,
) -> Result<(), Refusal>
    requires { EdgeLegal limit.most sheet.now.bytes.now nodes.old edges.old step.node step.index step.share }
    ensures { edge_move (refused_in result) nodes.new edges.new ≡ edge_moved (instance_of sheet.now.bytes.now) nodes.old edges.old limit.most (to_node flow) step.node step.index step.share }
{
    let u = step.node;
    let e = step.index;
    let low = sheet.low(e);
    let end = End::of(u, low);
    let w = end.either(sheet.high(e), low);
    let own = sheet.labels_of(u);
    let other = sheet.labels_of(w);
    let a = sheet.starts[u];
    let b = a + own.len();
    let c = sheet.tables[e];
    let d = c + own.len() * other.len();
    let joint = Joint {
        row: &nodes[a..b],
        cells: &edges[c..d],
        end,
        own,
        other,
    };
    let share = Share { parts: step.share };
    let mut each = [0; 16];
    if joint.weigh(flow, share, limit, &mut each) {
        let amounts = Amounts { each: &each };
        let width = joint.width();
        let height = joint.height();
        take_line(&mut nodes[a..b], amounts);
        move_cells(&mut edges[c..d], width, height, end, amounts);
        Ok(())
    } else {
        Err(Refusal::CostOverflow)
    }
}
