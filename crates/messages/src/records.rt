// A record of a list, and the messages: whether what each names exists, and then the move.
ghost use Rattle.std.specs.Prelude.{◌≡◌, ◌+◌, ◌^◌, ◌<◌, ◌≤◌, ◌==◌, ◌&&◌, ◌||◌, cond, nat_lt, neg_ℤ, unsigned_abs};
ghost use Rattle.instance.specs.Refusal.{refused_in};
ghost use Rattle.instance.specs.Instance.{exclusive, first};
ghost use Rattle.instance.specs.Sheet.{instance_of};
ghost use Rattle.rules.specs.Run.{kind_of, message, legal_share, legal_edge, legal_position};
ghost use Rattle.messages.specs.Records.{to_node, kind_as, head_of, edge_message, label_message};
ghost use Rattle.messages.specs.State.{Same, buffers_in, leaves};
ghost use Rattle.messages.specs.Step.{settle};

use crate::edge_record::move_edge;
use crate::state::State;
use instance::{Refusal, Sheet, exclusive};

// Which way a message goes: from the node, or to it.
#[derive(Clone, Copy, Debug, PartialEq, Eq)]
pub(crate) enum Flow {
    FromNode,
    ToNode,
}

impl Flow {
    // The node that a message comes from, or the label.
    pub(crate) fn either(self, node: usize, label: usize) -> usize
        ensures { result ≡ cond (to_node self) label node }
    {
        match self {
            Flow::FromNode => node,
            Flow::ToNode => label,
        }
    }

    // An amount that is given, as what goes from the node.
    pub(crate) fn turn(self, amount: i64) -> i64
        requires { unsigned_abs amount ≤ 2 ^ 41 }
        ensures { result ≡ cond (to_node self) (neg_ℤ amount) amount }
    {
        match self {
            Flow::FromNode => amount,
            Flow::ToNode => -amount,
        }
    }
}

// How a rounding finds a matching: node by node, or for all nodes at once.
#[derive(Clone, Copy, Debug, PartialEq, Eq)]
pub(crate) enum Way {
    InTurn,
    AtOnce,
}

// What a record does: a message between a node and an edge or a node and a label, or a rounding.
#[derive(Clone, Copy, Debug, PartialEq, Eq)]
pub(crate) enum Kind {
    Edge(Flow),
    Label(Flow),
    Rounding(Way),
}

// The kind by its number.
impl TryFrom<u8> for Kind {
    type Error = Refusal;

    ghost try_from_gives = { λ number r. r ≡ kind_as (kind_of number) };

    #[tactic(auto, using(crate::proofs::KindLaws::kind_past), unfolding(rules::specs::Run::kind_of))]
    fn try_from(number: u8) -> Result<Kind, Refusal> {
        match number {
            1 => Ok(Kind::Edge(Flow::FromNode)),
            2 => Ok(Kind::Edge(Flow::ToNode)),
            3 => Ok(Kind::Label(Flow::FromNode)),
            4 => Ok(Kind::Label(Flow::ToNode)),
            5 => Ok(Kind::Rounding(Way::InTurn)),
            6 => Ok(Kind::Rounding(Way::AtOnce)),
            _ => Err(Refusal::NoSuchRecord),
        }
    }
}

// What a record names.
#[derive(Clone, Copy, Debug, PartialEq, Eq)]
pub(crate) struct Record {
    pub node: usize,
    pub index: usize,
    pub share: u8,
}

impl Record {
    // The record in five bytes: kind, node, index in two bytes, share. Refused if there is no such kind.
    pub(crate) fn of(bytes: &[u8; 5]) -> Result<(Kind, Record), Refusal>
        ensures { result ≡ head_of bytes.now }
    {
        let [number, node, low, high, share] = *bytes;
        let named = Record {
            node: usize::from(node),
            index: usize::from(u16::from_le_bytes([low, high])),
            share,
        };
        Ok((Kind::try_from(number)?, named))
    }
}

// Whether a share is 1 to 64.
#[tactic(auto, using(crate::proofs::RecordLaws::share_none, crate::proofs::RecordLaws::share_some), unfolding(rules::specs::Run::legal_share))]
fn legal_share(share: u8) -> bool
    ensures { result ≡ legal_share share }
{
    1 <= share && share <= 64
}

// Whether a node is an end of an edge.
fn ends(sheet: &Sheet, u: usize, e: usize) -> bool
    requires { e < sheet.now.edges }
    ensures { result ≡ (u == (instance_of sheet.now.bytes.now).low e || u == (instance_of sheet.now.bytes.now).high e) }
{
    u == sheet.low(e) || u == sheet.high(e)
}

// Whether the label at a position of a node is not 255.
fn exclusive_at(sheet: &Sheet, u: usize, k: usize) -> bool
    requires { (u < sheet.now.nodes) × (k < (instance_of sheet.now.bytes.now).degree u) }
    ensures { result ≡ exclusive ((instance_of sheet.now.bytes.now).label (first (instance_of sheet.now.bytes.now) u + k)) }
{
    let label = sheet.label(sheet.starts[u] + k);
    exclusive(label)
}

// Whether the share and the node exist.
// Kept: the sheet and the record one by one, in these tests and in those of a node and an edge: a struct of both would be made for one question.
fn legal_node(sheet: &Sheet, step: Record) -> bool
    ensures { result ≡ (legal_share step.share && nat_lt step.node (instance_of sheet.now.bytes.now).node_count) }
{
    legal_share(step.share) && step.node < sheet.nodes
}

// Whether the share, the node and the edge exist, and the node is an end of the edge.
fn legal_edge(sheet: &Sheet, step: Record) -> bool
    ensures { result ≡ legal_edge (instance_of sheet.now.bytes.now) step.node step.index step.share }
{
    if legal_node(sheet, step) {
        if step.index < sheet.edges {
            return ends(sheet, step.node, step.index);
        }
    }
    false
}

// Whether the share, the node and the position exist, and its label is not 255.
#[tactic(auto, using(crate::proofs::RecordLaws::tests_off, crate::proofs::RecordLaws::tests_on, crate::proofs::RecordLaws::tests_past), unfolding(rules::specs::Run::legal_position))]
fn legal_position(sheet: &Sheet, step: Record) -> bool
    ensures { result ≡ legal_position (instance_of sheet.now.bytes.now) step.node step.index step.share }
{
    if legal_node(sheet, step) {
        if step.index < sheet.degree(step.node) {
            return exclusive_at(sheet, step.node, step.index);
        }
    }
    false
}

impl State<'_> {
    // A message between a node and an edge: kinds 1 and 2.
    // Kept: the way beside the record, here and where both are handed on: a rounding names as much and has no way, and a struct of both would be made in two arms of one `match`.
    pub(crate) fn edge_record(&mut self, flow: Flow, step: Record) -> Result<(), Refusal>
        ensures same { Same self.old self.new }
        ensures left { settle (buffers_in self.new) 0 (refused_in result) ≡ leaves self.old (message (edge_message flow)) step }
    {
        // the costs of a node change
        self.known = None;
        let run = self.run;
        if legal_edge(&run.sheet, step) {
            move_edge(&run.sheet, run.limit, self.nodes, self.edges, flow, step)
        } else {
            Err(Refusal::NoSuchRecord)
        }
    }

    // A message between a node and a label: kinds 3 and 4.
    pub(crate) fn label_record(&mut self, flow: Flow, step: Record) -> Result<(), Refusal>
        ensures same { Same self.old self.new }
        ensures left { settle (buffers_in self.new) 0 (refused_in result) ≡ leaves self.old (message (label_message flow)) step }
    {
        if legal_position(&self.run.sheet, step) {
            self.move_label(flow, step)
        } else {
            Err(Refusal::NoSuchRecord)
        }
    }
}
