// A run under way: what it goes by, and the four buffers that its records change.
ghost use Rattle.std.specs.Prelude.{◌≡◌};
ghost use Rattle.std.specs.Option.{ForSome};
ghost use Rattle.instance.specs.Sheet.{instance_of};
ghost use Rattle.rules.specs.Calls.{lent_refusal};
ghost use Rattle.messages.specs.Lent.{lent};
ghost use Rattle.messages.specs.LabelMessage.{Holders};
ghost use Rattle.messages.specs.Lows.{Knows};
ghost use Rattle.messages.specs.Rounded.{Lowers};

use crate::lows::Known;
use crate::running::Run;
use index::Index;

// Between any two records the buffers are good: lent again they would not be refused.
// Kept: each method says that the run and the four references are the same (`Same`), since a ghost field speaks of one value and not of two.
#[derive(Drop)]
pub(crate) struct State<'a> {
    pub run: &'a Run<'a>,
    pub nodes: &'a mut [i64],
    pub labels: &'a mut [i64],
    pub edges: &'a mut [i64],
    pub incumbent: &'a mut [u8],
    // the two least costs among which the last message between a node and a label was
    pub known: Option<Known>,
    // the indexes of the places by their labels and of the edges by their higher ends, each once a record has asked for it
    pub holders: Option<Index>,
    pub lowers: Option<Index>,
    ghost held: { ForSome holders (Holders run.now.sheet.bytes.now) },
    ghost lowered: { ForSome lowers (Lowers run.now.sheet.bytes.now) },
    ghost knows: { ForSome known (Knows (instance_of run.now.sheet.bytes.now) nodes.now labels.now) },
    ghost good: { lent_refusal run.now.sheet.bytes.now run.now.limit.most (lent nodes.now labels.now edges.now incumbent.now) ≡ 0 },
}
