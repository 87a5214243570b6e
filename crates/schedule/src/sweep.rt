// The two sweeps, and the public calls.
ghost use Rattle.std.specs.Prelude.{◌≡◌, ◌+◌, ◌*◌, ◌≤◌, length};
ghost use Rattle.integers.specs.Places.{range};
ghost use Rattle.instance.specs.Refusal.{refused_in};
ghost use Rattle.instance.specs.Sheet.{instance_of};
ghost use Rattle.schedule.specs.Sweep.{label_at, each, falling, sweep, sweep_length};
ghost use Rattle.schedule.specs.Written.{written, sweep_of, sweep_room};
ghost use Rattle.schedule.specs.Writing.{Wrote, Room, direction_of, direction_number, forward_of, backward_by};

use crate::edges::pass;
use crate::labels::{exclusive_places, exclusive_positions, from_labels, spots, to_labels};
use crate::writer::{Kind, Writer};
use index::Index;
use messages::{End, Refusal, Sheet, edges_by, places_by_label};

// The two directions, by their numbers.
#[derive(Clone, Copy)]
pub(crate) enum Direction {
    Forward = 0,
    Backward = 1,
}

impl TryFrom<u8> for Direction {
    type Error = Refusal;

    ghost try_from_gives = { λ number r. r ≡ direction_of number };

    #[tactic(auto, unfolding(crate::specs::Writing::direction_of))]
    fn try_from(number: u8) -> Result<Direction, Refusal> {
        match number {
            0 => Ok(Direction::Forward),
            1 => Ok(Direction::Backward),
            _ => Err(Refusal::NoSuchRecord),
        }
    }
}

// The nodes, rising: from the edges to lower nodes, to those to higher nodes, to the labels.
// Kept: the two indexes one by one, as a backward sweep gives them to `pass` the other way round; the sheet and the writer, as one is read and the other written.
fn forward(sheet: &Sheet, lower: &Index, higher: &Index, w: &mut Writer)
    requires { Room w.old (length (each (forward_of (instance_of sheet.now.bytes.now) lower.now higher.now) (range 0 sheet.now.nodes))) }
    ensures { Wrote w.old (each (forward_of (instance_of sheet.now.bytes.now) lower.now higher.now) (range 0 sheet.now.nodes)) w.new }
{
    for u in 0..sheet.nodes {
        let positions = exclusive_positions(sheet, u);
        pass(lower, higher, u, 1, w);
        to_labels(u, positions, w);
    }
}

// The labels, falling.
fn backward_labels(sheet: &Sheet, w: &mut Writer)
    requires { Room w.old (length (each (label_at (instance_of sheet.now.bytes.now)) (falling (instance_of sheet.now.bytes.now).label_count))) }
    ensures { Wrote w.old (each (label_at (instance_of sheet.now.bytes.now)) (falling (instance_of sheet.now.bytes.now).label_count)) w.new }
{
    let places = places_by_label(sheet);
    from_labels(&places, &spots(sheet), sheet.labels, w);
}

// The nodes, falling: from the edges to higher nodes, to those to lower nodes.
fn backward_nodes(n: usize, lower: &Index, higher: &Index, w: &mut Writer)
    requires n_bound { n ≤ 64 }
    requires room { Room w.old (length (each (backward_by lower.now higher.now) (falling n))) }
    ensures { Wrote w.old (each (backward_by lower.now higher.now) (falling n)) w.new }
{
    for u in (0..n).rev() {
        pass(higher, lower, u, 0, w);
    }
}

// A whole sweep.
fn whole(sheet: &Sheet, direction: Direction, w: &mut Writer)
    requires { Room w.old (length (sweep (instance_of sheet.now.bytes.now) (direction_number direction))) }
    ensures { Wrote w.old (sweep (instance_of sheet.now.bytes.now) (direction_number direction)) w.new }
{
    let lower = edges_by(sheet, End::Higher);
    let higher = edges_by(sheet, End::Lower);
    match direction {
        Direction::Forward => forward(sheet, &lower, &higher, w),
        Direction::Backward => {
            backward_labels(sheet, w);
            backward_nodes(sheet.nodes, &lower, &higher, w);
        }
    }
    w.put(Kind::Round, 0, 0, 0);
}

// How many bytes a sweep has, by the number of its edges and of the places that have a record.
fn length_by(edges: usize, places: usize) -> usize
    requires { (edges ≤ 256) × (places ≤ 1_024) }
    ensures { result ≡ 5 * (2 * edges + places + 1) }
{
    5 * (2 * edges + places + 1)
}

// How many bytes a sweep of a sheet has: there is no record for a 255.
fn length_of(sheet: &Sheet) -> usize
    ensures { result ≡ sweep_length (instance_of sheet.now.bytes.now) }
{
    let places = exclusive_places(sheet);
    length_by(sheet.edges, places)
}

// How many bytes to lend for a sweep: none for a sheet that is refused.
#[tactic(auto, using(crate::proofs::Written::room_is, crate::proofs::Written::room_none, instance::proofs::Told::numbered))]
pub fn sweep_length(sheet: &[u8]) -> usize
    ensures { result ≡ sweep_room sheet.now }
{
    match Sheet::read(sheet) {
        Ok(sheet) => length_of(&sheet),
        Err(_) => 0,
    }
}

// Writes the forward (0) or the backward (1) sweep of a sheet into a buffer of exactly its length.
// Refused with the sheet's own number where the sheet is, then with 12 for a direction that is none, then with 8 for a buffer of another
// length: `sweep_of` says which. What is refused leaves the buffer as it was.
// Kept: the direction is any byte, since 12 for another comes after the sheet's refusals; a narrower type would ask more of callers.
pub fn write_sweep(sheet: &[u8], direction: u8, out: &mut [u8]) -> Result<(), Refusal>
    ensures { written out.new (refused_in result) ≡ sweep_of sheet.now direction out.old }
{
    let sheet = Sheet::read(sheet)?;
    let direction = Direction::try_from(direction)?;
    if out.len() != length_of(&sheet) {
        return Err(Refusal::BufferLength);
    }
    let mut w = Writer { out, at: 0 };
    whole(&sheet, direction, &mut w);
    Ok(())
}
