// Counting the calls.
use crate::ops::Op;
use std::fmt;

// What is counted of one op.
#[derive(Clone, Copy, Default)]
struct Counts {
    compared: u64,
    differed: u64,
    skipped: u64,
}

impl Counts {
    // Counts a call: whether its answers are those of the file, none where it was skipped.
    fn add(&mut self, agreed: Option<bool>) {
        match agreed {
            None => self.skipped = self.skipped.saturating_add(1),
            Some(true) => self.compared = self.compared.saturating_add(1),
            Some(false) => {
                self.compared = self.compared.saturating_add(1);
                self.differed = self.differed.saturating_add(1);
            }
        }
    }
}

impl fmt::Display for Counts {
    fn fmt<W: fmt::Write>(&self, f: &mut fmt::Formatter<W>) -> fmt::Result {
        let compared = self.compared;
        let differed = self.differed;
        let skipped = self.skipped;
        write!(
            f,
            "compared {compared} differed {differed} skipped {skipped}"
        )
    }
}

// A case, and a call in it, both counted from 1.
#[derive(Clone, Copy, Default)]
struct Place {
    case: u64,
    call: u64,
}

#[derive(Clone, Copy, Default)]
pub struct Tally {
    // of each op, by its place in the enum; an edit's stay 0
    counts: [Counts; 9],
    // the cases gone through to their end
    cases: u64,
    // the call that is being gone through
    at: Place,
    first_differed: Option<Place>,
}

impl Tally {
    pub fn begin_case(&mut self) {
        self.at.case = self.at.case.saturating_add(1);
        self.at.call = 0;
    }

    pub fn end_case(&mut self) {
        self.cases = self.cases.saturating_add(1);
    }

    fn of(&mut self, op: Op) -> &mut Counts {
        // Kept: `as`, which is how Rust reads a variant's number.
        &mut self.counts[op as usize]
    }

    // Counts one call. An edit of the buffers is no call of the crates, and is not compared. But where the buffers
    // after it are not those of the file, this program or the file is wrong, and so that it shows, it is added to the
    // opens that differed, and not to those that were compared.
    pub fn add(&mut self, op: Op, agreed: Option<bool>) {
        self.at.call = self.at.call.saturating_add(1);
        if agreed == Some(false) {
            self.first_differed = self.first_differed.or(Some(self.at));
        }
        match op {
            Op::Resize | Op::Poke => {
                if agreed == Some(false) {
                    let open = self.of(Op::Open);
                    open.differed = open.differed.saturating_add(1);
                }
            }
            _ => self.of(op).add(agreed),
        }
    }
}

impl fmt::Display for Tally {
    fn fmt<W: fmt::Write>(&self, f: &mut fmt::Formatter<W>) -> fmt::Result {
        for op in Op::CALLS {
            // Kept: `as` again, since `of` wants a tally that may be changed.
            let counts = self.counts[op as usize];
            writeln!(f, "{op} {counts}")?;
        }
        let cases = self.cases;
        writeln!(f, "cases {cases}")?;
        match self.first_differed {
            None => writeln!(f, "no case differs"),
            Some(Place { case, call }) => writeln!(f, "case {case} call {call} differs"),
        }
    }
}
