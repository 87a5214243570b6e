// What a report and a run answer.
ghost use Rattle.std.specs.Prelude.{◌≡◌};
ghost use Rattle.messages.specs.Answers.{bound_of};

use instance::Refusal;

#[derive(Clone, Copy, Debug, PartialEq, Eq)]
pub enum Report {
    // the bound, with none kept
    Bound(i64),
    // the bound, the kept matching's cost on the sheet, and the gap
    Kept(i64, i64, i64),
}

impl Report {
    // The bound, which each report has.
    pub fn bound(self) -> i64
        ensures { result ≡ bound_of self }
    {
        match self {
            Report::Bound(bound) => bound,
            Report::Kept(bound, _, _) => bound,
        }
    }
}

// How many records a run finished, how many roundings were stuck, and the refusal that stopped it.
#[derive(Clone, Copy, Debug, PartialEq, Eq)]
pub struct Answer {
    pub done: usize,
    pub stuck: usize,
    pub refusal: Option<Refusal>,
}
