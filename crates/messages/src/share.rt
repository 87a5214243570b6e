// The share of a record.
ghost use Rattle.std.specs.Prelude.{◌≤◌};

// One of `parts` equal parts of a distance.
#[derive(Clone, Copy)]
pub(crate) struct Share {
    pub parts: u8,
    ghost some: { 1 ≤ parts },
}
