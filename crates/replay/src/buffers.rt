// The four buffers of a case, each with room for more than the vectors lend.
use crate::hash::Hash;
use crate::reader::Reader;
use arrayvec::ArrayVec;
use messages::{Answer, Refusal, Report};

#[derive(Clone, Copy, Debug, PartialEq, Eq)]
pub enum Buffer {
    Nodes,
    Labels,
    Edges,
    Incumbent,
}

// Any number above 2 is the incumbent's.
impl From<u8> for Buffer {
    fn from(number: u8) -> Buffer {
        match number {
            0 => Buffer::Nodes,
            1 => Buffer::Labels,
            2 => Buffer::Edges,
            _ => Buffer::Incumbent,
        }
    }
}

type Costs = ArrayVec<i64, 192>;

type Positions = ArrayVec<u8, 64>;

#[derive(Drop)]
pub struct Buffers {
    nodes: Costs,
    labels: Costs,
    edges: Costs,
    incumbent: Positions,
}

// A buffer of a length, with a value for each place; none where there is no room for it.
fn filled<T: Default + Drop, const N: usize, F: Fn(u32) -> T>(
    length: u32,
    value: F,
) -> Option<ArrayVec<T, N>>
    requires { F.IsAlwaysCallable value }
{
    let mut cells = ArrayVec::new();
    for place in 0..length {
        cells.try_push(value(place)).ok()?;
    }
    Some(cells)
}

// Another length, with 0 at new places; none where there is no room for it.
fn resize<T: Default + Drop, const N: usize>(
    cells: &mut ArrayVec<T, N>,
    length: usize,
) -> Option<()> {
    cells.truncate(length);
    for _ in cells.len()..length {
        cells.try_push(T::default()).ok()?;
    }
    Some(())
}

// Stores a value, if the buffer has the place.
fn poke<T: Drop, const N: usize>(cells: &mut ArrayVec<T, N>, place: usize, value: T) {
    if let Some(cell) = cells.get_mut(place) {
        *cell = value;
    }
}

impl Buffers {
    // The buffers before the first call: whether they hold the prior, and their lengths. None where one is too long.
    pub fn read(reader: &mut Reader) -> Option<Self> {
        let with_prior = reader.byte() != 0;
        let lengths = [reader.word(), reader.word(), reader.word(), reader.word()];
        if with_prior {
            Buffers::filled(
                lengths,
                |place| i64::from(place) * 7919 - 12345,
                // Kept: below 3; `try_from` would add a case that cannot happen.
                |place| (place % 3) as u8,
            )
        } else {
            Buffers::filled(lengths, |_| 0, |_| 0)
        }
    }

    fn filled<F: Fn(u32) -> i64, G: Fn(u32) -> u8>(
        lengths: [u32; 4],
        cost: F,
        position: G,
    ) -> Option<Self>
        requires cost { F.IsAlwaysCallable cost }
        requires position { G.IsAlwaysCallable position }
    {
        let [nodes, labels, edges, incumbent] = lengths;
        Some(Buffers {
            nodes: filled(nodes, &cost)?,
            labels: filled(labels, &cost)?,
            edges: filled(edges, &cost)?,
            incumbent: filled(incumbent, position)?,
        })
    }

    pub fn resize(&mut self, buffer: Buffer, length: usize) -> Option<()> {
        match buffer {
            Buffer::Nodes => resize(&mut self.nodes, length),
            Buffer::Labels => resize(&mut self.labels, length),
            Buffer::Edges => resize(&mut self.edges, length),
            Buffer::Incumbent => resize(&mut self.incumbent, length),
        }
    }

    // Stores a cost, or its low byte as a position.
    pub fn poke(&mut self, buffer: Buffer, place: usize, value: [u8; 8]) {
        let cost = i64::from_le_bytes(value);
        match buffer {
            Buffer::Nodes => poke(&mut self.nodes, place, cost),
            Buffer::Labels => poke(&mut self.labels, place, cost),
            Buffer::Edges => poke(&mut self.edges, place, cost),
            Buffer::Incumbent => poke(&mut self.incumbent, place, value[0]),
        }
    }

    pub fn open(&mut self, sheet: &[u8]) -> Result<(), Refusal> {
        messages::open(
            sheet,
            self.nodes.as_mut_slice(),
            self.labels.as_mut_slice(),
            self.edges.as_mut_slice(),
            self.incumbent.as_mut_slice(),
        )
    }

    pub fn run(&mut self, sheet: &[u8], records: &[u8]) -> Answer {
        messages::run(
            sheet,
            records,
            self.nodes.as_mut_slice(),
            self.labels.as_mut_slice(),
            self.edges.as_mut_slice(),
            self.incumbent.as_mut_slice(),
        )
    }

    pub fn report(&self, sheet: &[u8]) -> Result<Report, Refusal> {
        messages::report(
            sheet,
            self.nodes.as_slice(),
            self.labels.as_slice(),
            self.edges.as_slice(),
            self.incumbent.as_slice(),
        )
    }

    pub fn hash(&self) -> Hash {
        Hash::new()
            .costs(self.nodes.as_slice())
            .costs(self.labels.as_slice())
            .costs(self.edges.as_slice())
            .bytes(self.incumbent.as_slice())
    }
}
