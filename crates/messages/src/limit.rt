// The limit of costs.
ghost use Rattle.std.specs.Prelude.{◌≡◌, ◌/◌, ◌≤◌};
ghost use Rattle.rules.specs.Calls.{cost_limit};

// No cost passes `most`, up or down. Every call has the one limit; the quick test of many costs goes by half of it.
#[derive(Clone, Copy)]
pub(crate) struct Limit {
    pub most: u64,
    ghost few: { most ≤ cost_limit },
}

// The limit of every call.
pub(crate) const COST_LIMIT: Limit = Limit {
    most: 0x100_0000_0000,
};

impl Limit {
    // Half of it: two costs within this add up to one within the whole.
    pub(crate) fn half(self) -> Limit
        ensures { result.most ≡ self.most / 2 }
    {
        Limit {
            most: self.most / 2,
        }
    }
}
