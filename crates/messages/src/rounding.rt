// Rounding by equation (10): node by node the free position with the least key, the lowest of equals. Document 01, record 5.
ghost use Rattle.std.specs.Prelude.{◌≡◌, ℕ, ◌+◌, ◌^◌, ◌<◌, ◌≤◌, true, IfSome, length, pos, slice_index_or};
ghost use Rattle.std.specs.Option.{IsSome};
ghost use Rattle.integers.specs.Sum.{Within};
ghost use Rattle.instance.specs.Instance.{first};
ghost use Rattle.instance.specs.Sheet.{instance_of};
ghost use Rattle.rules.specs.Calls.{cost_limit};
ghost use Rattle.rules.specs.Rounding.{round};
ghost use Rattle.placing.specs.Assigning.{rounded_by};
ghost use Rattle.messages.specs.Rounded.{costs_by, added, keys_at, edge_row, better, chosen_from, Placed};
ghost use Rattle.messages.specs.State.{Same, instance_in, buffers_in};

use crate::end::End;
use crate::indexes::edges_by;
use crate::state::State;
use instance::{Sheet, exclusive};

// Adds a row of costs to the keys, place by place.
// Kept: that the costs are within the limit is asked for. They are cut from a buffer for this one call; a struct around them would be made and opened at each cut. So is, here and in `add_edge`, that the keys are no larger than sums of them: an array that is made for one node.
fn add_cells(keys: &mut [i64], row: &[i64])
    requires row_in_bounds { length row.now ≤ length keys.old }
    requires within { Within (2 ^ 50) keys.old }
    requires within_2 { Within cost_limit row.now }
    ensures { keys.new ≡ added keys.old row.now }
{
    // Kept: a key by its place, since a proof knows nothing of what is written through a `zip` of `iter_mut`.
    for (i, cost) in row.iter().enumerate() {
        keys[i] += *cost;
    }
}

// The better of the best so far, if there is one, and the free position `k`.
#[tactic(auto, using(crate::proofs::ChoiceLaws::better_first, crate::proofs::ChoiceLaws::better_less, crate::proofs::ChoiceLaws::better_stays))]
fn better_of(keys: &[i64; 16], best: Option<usize>, k: usize) -> Option<usize>
    requires { IfSome best (λ b. b < 16) × (k < 16) }
    ensures { result ≡ better true (λ (i : ℕ). slice_index_or keys.now i (pos 0)) best k }
{
    match best {
        Some(b) if keys[b] <= keys[k] => best,
        _ => Some(k),
    }
}

// The position of `u` with the least key of those whose labels may still be taken, the lowest of equals, if there is one.
fn choose(sheet: &Sheet, u: usize, keys: &[i64; 16], untaken: &[bool; 256]) -> Option<usize>
    requires { u < sheet.now.nodes }
    ensures { result ≡ chosen_from (instance_of sheet.now.bytes.now) (first (instance_of sheet.now.bytes.now) u) keys.now untaken.now ((instance_of sheet.now.bytes.now).degree u) }
{
    let at = sheet.starts[u];
    let mut best = None;
    for k in 0..sheet.degree(u) {
        let label = sheet.label(at + k);
        if untaken[label] {
            best = better_of(keys, best, k);
        }
    }
    best
}

impl State<'_> {
    // Makes the index of the edges by their higher ends, where no record has asked for it before.
    pub(crate) fn make_lowers(&mut self)
        ensures same { Same self.old self.new × (buffers_in self.new ≡ buffers_in self.old) }
        ensures made { IsSome self.new.lowers }
    {
        if self.lowers.is_none() {
            self.lowers = Some(edges_by(&self.run.sheet, End::Higher));
        }
    }

    // Adds the row of edge `e` that its lower end's position picks; `u` is its higher end.
    fn add_edge(&self, positions: &[u8; 64], u: usize, e: usize, keys: &mut [i64])
        requires placed { Placed (instance_in self.now) positions.now u × (e < self.now.run.now.sheet.edges) × ((instance_in self.now).high e ≡ u) }
        requires keys_len { (length keys.old ≡ 16) × Within (2 ^ 50) keys.old }
        ensures { keys.new ≡ added keys.old (edge_row (instance_in self.now) self.now.edges.now positions.now e) }
    {
        let sheet = &self.run.sheet;
        let low = sheet.low(e);
        let degree = sheet.degree(u);
        let row = sheet.tables[e] + degree * usize::from(positions[low]);
        add_cells(keys, &self.edges[row..row + degree]);
    }

    // The keys of the positions of `u`: node costs, and edge cells to the nodes below it, by the edges of which `u` is the higher end.
    fn keys_of(&self, positions: &[u8; 64], u: usize) -> [i64; 16]
        requires placed { (u < self.now.run.now.sheet.nodes) × Placed (instance_in self.now) positions.now u }
        requires made { IsSome self.now.lowers }
        ensures { result ≡ keys_at (instance_in self.now) (costs_by self.now.nodes.now self.now.edges.now) positions.now u }
    {
        let sheet = &self.run.sheet;
        let start = sheet.starts[u];
        let mut keys = [0i64; 16];
        add_cells(&mut keys, &self.nodes[start..start + sheet.degree(u)]);
        // Kept: it does not fail, as that the index is made is asked for.
        let lowers = self.lowers.as_ref().unwrap();
        for e in lowers.row(u) {
            self.add_edge(positions, u, usize::from(*e), &mut keys);
        }
        keys
    }

    // Rounds by the node and edge costs: a position for each node, or none where no label is left for one.
    // Kept: that the index is made is asked for here, in `keys_of` and in the record's own method: the record's kind has just made it.
    pub(crate) fn round_all(&self) -> Option<[u8; 64]>
        requires { IsSome self.now.lowers }
        ensures { result ≡ rounded_by (round (instance_in self.now) (costs_by self.now.nodes.now self.now.edges.now)) }
    {
        let sheet = &self.run.sheet;
        // the positions of the nodes gone through, and the labels that may still be taken: 255, and those that none of them takes
        let mut x = [0u8; 64];
        let mut untaken = [true; 256];
        for u in 0..sheet.nodes {
            let keys = self.keys_of(&x, u);
            let k = choose(sheet, u, &keys, &untaken)?;
            // Kept: a position is below 16, so `try_from` would add a case that cannot happen.
            x[u] = k as u8;
            let label = sheet.label(sheet.starts[u] + k);
            untaken[label] = !exclusive(label);
        }
        Some(x)
    }
}
