// Messages between a node and a label: kinds 3 and 4.
ghost use Rattle.std.specs.Prelude.{◌≡◌, ◌+◌, ◌^◌, ◌<◌, ◌≤◌, true, length, pos, slice_index_or, unsigned_abs};
ghost use Rattle.std.specs.Option.{IsSome};
ghost use Rattle.integers.specs.Sum.{Within};
ghost use Rattle.instance.specs.Instance.{first, node_cells};
ghost use Rattle.instance.specs.Refusal.{refused_in};
ghost use Rattle.rules.specs.Calls.{cost_limit};
ghost use Rattle.rules.specs.Places.{node_places, label_places};
ghost use Rattle.rules.specs.Run.{message, legal_position};
ghost use Rattle.messages.specs.EdgeMessage.{unbounded};
ghost use Rattle.messages.specs.LabelMessage.{label_moved, label_move, PlaceAsked, Asked};
ghost use Rattle.messages.specs.Lows.{Lowest, LowestFor, costs_for};
ghost use Rattle.messages.specs.Records.{label_message};
ghost use Rattle.messages.specs.State.{Same, instance_in, buffers_in, leaves};
ghost use Rattle.messages.specs.Step.{settle};

use crate::indexes::places_by_label;
use crate::limit::Limit;
use crate::lows::{Known, Lows, label_lows, node_lows};
use crate::records::{Flow, Record};
use crate::rows::in_range;
use crate::share::Share;
use crate::state::State;
use instance::Refusal;

// Moves `p` from the node cost to the label cost at the place `i`, where both stay within the limit.
// Kept: over the two buffers, which it asks to be within the limit: a method would have to show what a `State` promises by itself, which the record's own method has from the law of all records.
#[tactic(auto, using(crate::proofs::LabelMessageLaws::moved_both, crate::proofs::LabelMessageLaws::moved_not, integers::proofs::Bits::same))]
fn shift_label(
    nodes: &mut [i64],
    labels: &mut [i64],
    i: usize,
    p: i64,
    limit: Limit,
) -> Result<(), Refusal>
    requires i_in_bounds { (i < length nodes.old) × (i < length labels.old) }
    requires within { Within cost_limit nodes.old }
    requires within_2 { Within cost_limit labels.old }
    requires p_bound { unsigned_abs p ≤ 2 ^ 41 }
    ensures { label_move (refused_in result) nodes.new labels.new ≡ label_moved limit.most nodes.old labels.old i p }
{
    let node = nodes[i] - p;
    let label = labels[i] + p;
    if in_range(node, limit) {
        if in_range(label, limit) {
            nodes[i] = node;
            labels[i] = label;
            return Ok(());
        }
    }
    Err(Refusal::CostOverflow)
}

impl State<'_> {
    // Makes the index of the places by their labels, where no record has asked for it before.
    fn make_holders(&mut self)
        ensures same { Same self.old self.new × (buffers_in self.new ≡ buffers_in self.old) }
        ensures made { IsSome self.new.holders }
    {
        if self.holders.is_none() {
            self.holders = Some(places_by_label(&self.run.sheet));
        }
    }

    // The two least of 0 and the costs of a label.
    // Kept: that the index is made is asked for: its one caller has just made it.
    fn holder_lows(&self, l: usize) -> Lows
        requires label { l < 64 }
        requires made { IsSome self.now.holders }
        ensures { Lowest (pos 0) (λ i. slice_index_or self.now.labels.now i (pos 0)) (label_places (instance_in self.now) l) result }
    {
        // Kept: it does not fail, as that the index is made is asked for.
        let holders = self.holders.as_ref().unwrap();
        label_lows(self.labels, holders.row(l))
    }

    // The two least costs of a node.
    fn row_lows(&self, u: usize) -> Lows
        requires { u < self.now.run.now.sheet.nodes }
        ensures { Lowest unbounded (λ i. slice_index_or self.now.nodes.now i (pos 0)) (node_places (instance_in self.now) u) result }
    {
        let sheet = &self.run.sheet;
        let from = sheet.starts[u];
        node_lows(self.nodes, from, from + sheet.degree(u))
    }

    // Where the place of a record stands in the costs.
    // Kept: that it has such a place is asked for here and in `move_label`, which calls it: it has just been tested.
    fn place_of(&self, step: Record) -> usize
        requires { PlaceAsked (instance_in self.now) step.node step.index step.share }
        ensures { result ≡ first (instance_in self.now) step.node + step.index }
    {
        let sheet = &self.run.sheet;
        sheet.starts[step.node] + step.index
    }

    // The two least of the costs among which a message moves one, of a node or of a label: as they are known, or looked for.
    fn lows(&mut self, flow: Flow, of: usize) -> Lows
        requires { Asked (instance_in self.old) flow of }
        ensures same { Same self.old self.new × (buffers_in self.new ≡ buffers_in self.old) }
        ensures lows { LowestFor (instance_in self.new) self.new.nodes.now self.new.labels.now flow of result }
    {
        if let Some(known) = self.known {
            if known.fits(flow, of) {
                return known.lows;
            }
        }
        match flow {
            Flow::FromNode => self.row_lows(of),
            Flow::ToNode => {
                self.make_holders();
                self.holder_lows(of)
            }
        }
    }

    // The cost at a place that a message moves: the node's, or the label's.
    fn cost_at(&self, flow: Flow, place: usize) -> i64
        requires { place < node_cells (instance_in self.now) }
        ensures { result ≡ costs_for flow self.now.nodes.now self.now.labels.now place }
    {
        match flow {
            Flow::FromNode => self.nodes[place],
            Flow::ToNode => self.labels[place],
        }
    }

    // Moves what the cost at the record's place gives, from the node or to it.
    // Kept: that the record exists is asked for, once: its one caller has just tested it.
    pub(crate) fn move_label(&mut self, flow: Flow, step: Record) -> Result<(), Refusal>
        requires { legal_position (instance_in self.old) step.node step.index step.share ≡ true }
        ensures same { Same self.old self.new }
        ensures left { settle (buffers_in self.new) 0 (refused_in result) ≡ leaves self.old (message (label_message flow)) step }
    {
        let place = self.place_of(step);
        let of = flow.either(step.node, self.run.sheet.label(place));
        let lows = self.lows(flow, of);
        let cost = self.cost_at(flow, place);
        let amount = lows.given(cost, Share { parts: step.share });
        let limit = self.run.limit;
        let p = flow.turn(amount);
        // Kept: until both costs have moved nothing is known of them. A record that is refused moves none, but a run ends with it.
        self.known = None;
        shift_label(self.nodes, self.labels, place, p, limit)?;
        let lows = lows.moved(cost, cost - amount);
        self.known = Some(Known { flow, of, lows });
        Ok(())
    }
}
