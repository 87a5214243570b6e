// A record of kind 5 or 6: a rounding is stuck, or what it found may take the incumbent's place.
ghost use Rattle.std.specs.Prelude.{◌≡◌, ◌&&◌, ◌==◌};
ghost use Rattle.std.specs.Option.{IsSome};
ghost use Rattle.instance.specs.Refusal.{refused_in};
ghost use Rattle.rules.specs.Assigned.{assignment, candidate};
ghost use Rattle.rules.specs.Run.{rounding};
ghost use Rattle.placing.specs.Assigning.{rounded_by};
ghost use Rattle.messages.specs.declared.records.Way.TheVariants.{InTurn};
ghost use Rattle.messages.specs.Records.{way_of};
ghost use Rattle.messages.specs.Rounded.{costs_by};
ghost use Rattle.messages.specs.Step.{settle, stuck_in};
ghost use Rattle.messages.specs.State.{Same, instance_in, buffers_in, leaves};

use crate::labelled::Labelled;
use crate::records::{Record, Way};
use crate::state::State;
use instance::Refusal;
use placing::{Costed, cheapest};

// Whether the record names nothing, as one of kind 5 or 6 must.
fn names_nothing(step: Record) -> bool
    ensures { result ≡ (step.node == 0 && step.index == 0 && step.share == 0) }
{
    step == Record {
        node: 0,
        index: 0,
        share: 0,
    }
}

impl State<'_> {
    // The matching with the least sum of node costs, or none where there is no matching.
    fn assign(&self) -> Option<[u8; 64]>
        ensures { result ≡ rounded_by (assignment (instance_in self.now) (costs_by self.now.nodes.now self.now.edges.now)) }
    {
        let costed = Costed {
            sheet: &self.run.sheet,
            costs: self.nodes,
        };
        cheapest(&costed)
    }

    // Makes what the way goes by: node by node, the index of the edges by their higher ends.
    pub(crate) fn prepare(&mut self, way: Way)
        ensures same { Same self.old self.new × (buffers_in self.new ≡ buffers_in self.old) }
        ensures made { way ≡ InTurn → IsSome self.new.lowers }
    {
        match way {
            Way::InTurn => self.make_lowers(),
            Way::AtOnce => {}
        }
    }

    // A position for each node by one of the two ways, or none where it is stuck.
    fn candidate(&self, way: Way) -> Option<[u8; 64]>
        requires { way ≡ InTurn → IsSome self.now.lowers }
        ensures { result ≡ rounded_by (candidate (instance_in self.now) (costs_by self.now.nodes.now self.now.edges.now) (way_of way)) }
    {
        match way {
            Way::InTurn => self.round_all(),
            Way::AtOnce => self.assign(),
        }
    }

    // Rounds, and adopts what was found. How many roundings were stuck, 0 or 1.
    // Kept: a count, as a run adds them up.
    pub(crate) fn round_record(&mut self, way: Way, step: Record) -> Result<usize, Refusal>
        requires { way ≡ InTurn → IsSome self.old.lowers }
        ensures same { Same self.old self.new }
        ensures left { settle (buffers_in self.new) (stuck_in result) (refused_in result) ≡ leaves self.old (rounding (way_of way)) step }
    {
        if !names_nothing(step) {
            return Err(Refusal::NoSuchRecord);
        }
        let Some(x) = self.candidate(way) else {
            return Ok(1);
        };
        let sheet = &self.run.sheet;
        let found = Labelled {
            sheet,
            x: &x[..sheet.nodes],
        };
        found.adopt(self.incumbent);
        Ok(0)
    }
}
