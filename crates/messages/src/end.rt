// The two ends of an edge, by where they stand in its two bytes.
ghost use Rattle.std.specs.Prelude.{◌≡◌, cond, nat_eq};
ghost use Rattle.messages.specs.EdgeMessage.{by_rows};

// Each position of the lower end has a row of the edge's table, each of the higher a column.
#[derive(Clone, Copy)]
pub enum End {
    Lower = 0,
    Higher = 1,
}

impl End {
    // The end at which a node stands, by the lower end of its edge.
    pub(crate) fn of(node: usize, low: usize) -> End
        ensures { by_rows result ≡ nat_eq node low }
    {
        if node == low { End::Lower } else { End::Higher }
    }

    // What goes by rows at the lower end, and what by columns at the higher.
    pub(crate) fn either(self, row: usize, column: usize) -> usize
        ensures { result ≡ cond (by_rows self) row column }
    {
        match self {
            End::Lower => row,
            End::Higher => column,
        }
    }
}
