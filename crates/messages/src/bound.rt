// The bound: the sum of each node's least cost, each edge's least usable cell, and for each label the least of 0 and its label costs.
ghost use Rattle.std.specs.Prelude.{◌≡◌, ◌*◌, ◌<◌, ◌≤◌, true, pos, slice_index_or, unsigned_abs};
ghost use Rattle.integers.specs.Sum.{Within};
ghost use Rattle.integers.specs.Least.{least_of};
ghost use Rattle.integers.specs.Places.{total};
ghost use Rattle.instance.specs.Sheet.{instance_of};
ghost use Rattle.instance.specs.Instance.{node_cells, table_size};
ghost use Rattle.rules.specs.Held.{bound_in};
ghost use Rattle.rules.specs.Calls.{cost_limit};
ghost use Rattle.messages.specs.Lent.{lent_of, Fits};
ghost use Rattle.instance.specs.Described.{labels_of};
ghost use Rattle.messages.specs.EdgeMessage.{usable_cells};
ghost use Rattle.messages.specs.Bounds.{row_least, table_least, least_labels};

use crate::checked::Checked;
use crate::rows::least_of;
use crate::usable::usable_least;
use instance::Sheet;

// The sum of each node's least cost.
fn node_sum(held: &Checked) -> i64
    ensures { (result ≡ total held.now.sheet.now.nodes (row_least (instance_of held.now.sheet.now.bytes.now) held.now.lent.nodes.now)) × (unsigned_abs result ≤ held.now.sheet.now.nodes * cost_limit) }
{
    let sheet = held.sheet;
    let mut sum = 0;
    for u in 0..sheet.nodes {
        let at = sheet.starts[u];
        let to = at + sheet.degree(u);
        sum += least_of(&held.lent.nodes[at..to]);
    }
    sum
}

// The least usable of the cells of edge `e`.
// Kept: that the costs of the cells fit is asked for. They are cut from a buffer for this one call; a struct around them would be made and opened at each cut.
fn cell_least(sheet: &Sheet, cells: &[i64], e: usize) -> i64
    requires edge { e < sheet.now.edges }
    requires fits { Fits (table_size (instance_of sheet.now.bytes.now) e) cells.now }
    ensures { result ≡ least_of (usable_cells true (labels_of sheet.now.bytes.now ((instance_of sheet.now.bytes.now).low e)) (labels_of sheet.now.bytes.now ((instance_of sheet.now.bytes.now).high e)) cells.now) }
{
    let low = sheet.labels_of(sheet.low(e));
    let high = sheet.labels_of(sheet.high(e));
    usable_least(cells, low, high)
}

// The sum of each edge's least usable cell.
// Kept: beside `node_sum`. One function of both would take two closures, with a law for each, and save four lines.
fn edge_sum(held: &Checked) -> i64
    ensures { (result ≡ total held.now.sheet.now.edges (table_least held.now.sheet.now.bytes.now held.now.lent.edges.now)) × (unsigned_abs result ≤ held.now.sheet.now.edges * cost_limit) }
{
    let sheet = held.sheet;
    let mut sum = 0;
    for e in 0..sheet.edges {
        let at = sheet.tables[e];
        let to = at + sheet.size(e);
        sum += cell_least(sheet, &held.lent.edges[at..to], e);
    }
    sum
}

// For each label the least of 0 and its label costs; for 255 too, which no sum takes in.
fn label_leasts(held: &Checked) -> [i64; 256]
    ensures { result ≡ least_labels (instance_of held.now.sheet.now.bytes.now) held.now.lent.labels.now (node_cells (instance_of held.now.sheet.now.bytes.now)) }
{
    let mut least = [0i64; 256];
    for (i, cost) in held.lent.labels.iter().enumerate() {
        let l = held.sheet.label(i);
        least[l] = least[l].min(*cost);
    }
    least
}

// The sum of the first `count`.
// Kept: the leasts are asked to be within the limit: an array that is made for this one call, by the function above.
fn label_sum(least: &[i64; 256], count: usize) -> i64
    requires count_bound { count ≤ 64 }
    requires within { Within cost_limit least.now }
    ensures { (result ≡ total count (λ l. slice_index_or least.now l (pos 0))) × (unsigned_abs result ≤ count * cost_limit) }
{
    let mut sum = 0;
    for cost in &least[..count] {
        sum += *cost;
    }
    sum
}

// The bound of the lent costs.
pub(crate) fn lower_bound(held: &Checked) -> i64
    ensures { (result ≡ bound_in (instance_of held.now.sheet.now.bytes.now) (lent_of held.now.lent)) × (unsigned_abs result ≤ 384 * cost_limit) }
{
    let least = label_leasts(held);
    let by_label = label_sum(&least, held.sheet.labels);
    let by_node = node_sum(held);
    let by_edge = edge_sum(held);
    by_node + by_edge + by_label
}
