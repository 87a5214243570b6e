// What the positions of a node, or of an edge's end, give.
ghost use Rattle.std.specs.Prelude.{◌^◌};
ghost use Rattle.integers.specs.Sum.{Within};

// An amount for each position, and 0 for each place past them. None passes twice the limit of costs.
// Kept: a reference, so that no array is copied.
#[derive(Clone, Copy)]
pub(crate) struct Amounts<'a> {
    pub each: &'a [i64; 16],
    ghost small: { Within (2 ^ 41) each.now },
}
