// One record of a run, by its kind.
ghost use Rattle.std.specs.Prelude.{◌≡◌};
ghost use Rattle.instance.specs.Refusal.{refused_in};
ghost use Rattle.messages.specs.Step.{settle, settled_by, stuck_in};
ghost use Rattle.messages.specs.State.{Same, instance_in, limit_in, buffers_in};

use crate::records::{Kind, Record};
use crate::state::State;
use instance::Refusal;

impl State<'_> {
    // A record in five bytes; a kind that does not exist is refused. How many roundings were stuck, 0 or 1.
    // Kept: a count, as a run adds them up. What to do by the kind is a `match` on an enum; a table of functions would be no plainer.
    pub(crate) fn one_record(&mut self, bytes: &[u8; 5]) -> Result<usize, Refusal>
        ensures same { Same self.old self.new }
        ensures left { settle (buffers_in self.new) (stuck_in result) (refused_in result) ≡ settled_by (instance_in self.old) (limit_in self.old) (buffers_in self.old) bytes.now }
    {
        let (kind, step) = Record::of(bytes)?;
        match kind {
            Kind::Edge(flow) => self.edge_record(flow, step)?,
            Kind::Label(flow) => self.label_record(flow, step)?,
            Kind::Rounding(way) => {
                self.prepare(way);
                return self.round_record(way, step);
            }
        }
        Ok(0)
    }
}
