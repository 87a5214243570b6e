// Records between a node and its labels: kinds 3 and 4.
ghost use Rattle.std.specs.Prelude.{◌≡◌, ◌+◌, ◌≤◌, ◌<◌, length};
ghost use Rattle.integers.specs.Places.{range, offset};
ghost use Rattle.instance.specs.Sheet.{instance_of};
ghost use Rattle.index.specs.Index.{many};
ghost use Rattle.schedule.specs.Sweep.{each, falling, to_labels};
ghost use Rattle.schedule.specs.Writing.{Wrote, Room, Rows, Marked, Spots, exclusive_count, label_by};

use crate::writer::{Kind, Writer};
use index::Index;
use messages::{Sheet, exclusive};

// How many positions of node `u` have another label than 255, which only its last can be.
pub(crate) fn exclusive_positions(sheet: &Sheet, u: usize) -> usize
    requires { u < sheet.now.nodes }
    ensures { (result ≡ exclusive_count (instance_of sheet.now.bytes.now) u) × (result ≤ (instance_of sheet.now.bytes.now).degree u) × (result ≤ 16) }
{
    let degree = sheet.degree(u);
    let last = sheet.starts[u] + (degree - 1);
    if exclusive(sheet.label(last)) {
        return degree;
    }
    degree - 1
}

// The same of all nodes together.
pub(crate) fn exclusive_places(sheet: &Sheet) -> usize
    ensures { result ≡ offset (exclusive_count (instance_of sheet.now.bytes.now)) sheet.now.nodes }
{
    let mut sum = 0;
    for u in 0..sheet.nodes {
        sum += exclusive_positions(sheet, u);
    }
    sum
}

// Kind 3 with share 1 at each of the first positions of node `u`.
pub(crate) fn to_labels(u: usize, positions: usize, w: &mut Writer)
    requires bounds { (u < 256) × (positions ≤ 256) }
    requires room { Room w.old positions }
    ensures { Wrote w.old (to_labels u (range 0 positions)) w.new }
{
    for k in 0..positions {
        // Kept: both are below 256; `try_from` would add a case that cannot happen.
        w.put(Kind::ToLabel, u as u8, k as u16, 1);
    }
}

// A place: its node, and its position there.
#[derive(Clone, Copy)]
pub(crate) struct Spot {
    pub(crate) node: u8,
    pub(crate) position: u8,
}

// Marks the places of one node, from `at` on.
fn mark(spots: &mut [Spot; 1024], at: usize, degree: usize, u: usize)
    requires { (length spots.old ≡ 1024) × (at + degree ≤ 1024) × (degree < 256) × (u < 256) }
    ensures { Marked spots.old at u degree spots.new }
{
    for k in 0..degree {
        // Kept: both are below 256; `try_from` would add a case that cannot happen.
        spots[at + k] = Spot {
            node: u as u8,
            position: k as u8,
        };
    }
}

// The places of a sheet.
pub(crate) fn spots(sheet: &Sheet) -> [Spot; 1024]
    ensures { Spots (instance_of sheet.now.bytes.now).degree sheet.now.nodes result }
{
    let nowhere = Spot {
        node: 0,
        position: 0,
    };
    let mut spots = [nowhere; 1024];
    for u in 0..sheet.nodes {
        mark(&mut spots, sheet.starts[u], sheet.degree(u), u);
    }
    spots
}

// Kind 4 with share 1 at each place that has the label.
// Kept: it and `from_labels` ask that places are below 1,024. A struct of the index and the spots would be made once, for these two, and say the same.
fn from_label(places: &Index, spots: &[Spot; 1024], label: usize, w: &mut Writer)
    requires rows { Rows places.now 1024 }
    requires label_bound { label < 64 }
    requires room { Room w.old (many places.now label) }
    ensures { Wrote w.old (label_by places.now spots.now label) w.new }
{
    for place in places.row(label) {
        let spot = spots[usize::from(*place)];
        w.put(Kind::FromLabel, spot.node, u16::from(spot.position), 1);
    }
}

// The same for each label, falling.
pub(crate) fn from_labels(places: &Index, spots: &[Spot; 1024], labels: usize, w: &mut Writer)
    requires rows { Rows places.now 1024 }
    requires labels_bound { labels ≤ 64 }
    requires room { Room w.old (length (each (label_by places.now spots.now) (falling labels))) }
    ensures { Wrote w.old (each (label_by places.now spots.now) (falling labels)) w.new }
{
    for label in (0..labels).rev() {
        from_label(places, spots, label, w);
    }
}
