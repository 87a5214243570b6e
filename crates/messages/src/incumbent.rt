// The incumbent: whether its bytes are a matching or none, and whether a labelling replaces it.
ghost use Rattle.std.specs.Prelude.{◌≡◌, length, nat_eq};
ghost use Rattle.integers.specs.Places.{every};
ghost use Rattle.instance.specs.Sheet.{instance_of};
ghost use Rattle.rules.specs.Costs.{none_kept};
ghost use Rattle.rules.specs.Matchings.{is_matching};
ghost use Rattle.messages.specs.Incumbent.{replaces, adopted_of};
ghost use Rattle.messages.specs.RoundRecord.{IncumbentFits};

use crate::labelled::Labelled;
use instance::{Sheet, exclusive};

// Whether each byte is 255.
// Kept: 255 is what the bytes that C lends have where no matching is kept.
pub(crate) fn all_none(x: &[u8]) -> bool
    ensures { result ≡ every (nat_eq 255) x.now }
{
    x.iter().all(|k| *k == 255)
}

// Whether none is kept; of no nodes the empty matching is.
#[tactic(auto, using(crate::proofs::IncumbentLaws::none_empty, crate::proofs::IncumbentLaws::none_some))]
pub(crate) fn none_kept(x: &[u8]) -> bool
    ensures { result ≡ none_kept x.now }
{
    !x.is_empty() && all_none(x)
}

// Whether each node has a position whose label is 255 or no lower node's. `untaken` has the labels that may be taken still, 255 always.
// Kept: `untaken` is an array here and in `round_all`; a struct of it would be one array with two methods of a line.
pub(crate) fn is_matching(sheet: &Sheet, x: &[u8]) -> bool
    requires { length x.now ≡ sheet.now.nodes }
    ensures { result ≡ is_matching (instance_of sheet.now.bytes.now) x.now }
{
    let mut untaken = [true; 256];
    for u in 0..sheet.nodes {
        let k = usize::from(x[u]);
        if sheet.degree(u) <= k {
            return false;
        }
        let label = sheet.label(sheet.starts[u] + k);
        if !untaken[label] {
            return false;
        }
        untaken[label] = !exclusive(label);
    }
    true
}

impl Labelled<'_> {
    // Whether it replaces the incumbent: none is kept, or its price is lower.
    // Kept: it and `adopt` ask that the incumbent is a matching or none. A `State` knows it of its own, and the bytes lent here are that one's.
    #[tactic(auto, using(crate::proofs::IncumbentLaws::kept_labelling, crate::proofs::IncumbentLaws::replaces_kept, crate::proofs::IncumbentLaws::replaces_none, integers::proofs::Bits::same))]
    fn replaces(&self, old: &[u8]) -> bool
        requires { IncumbentFits self.now.sheet.now.bytes.now old.now }
        ensures { result ≡ replaces (instance_of self.now.sheet.now.bytes.now) self.now.x.now old.now }
    {
        if none_kept(old) {
            return true;
        }
        let kept = Labelled {
            sheet: self.sheet,
            x: old,
        };
        self.price() < kept.price()
    }

    // Puts the labelling in the incumbent's place where it replaces it.
    #[tactic(auto, using(crate::proofs::IncumbentLaws::adopted_new, crate::proofs::IncumbentLaws::adopted_old))]
    pub(crate) fn adopt(&self, incumbent: &mut [u8])
        requires { IncumbentFits self.now.sheet.now.bytes.now incumbent.old }
        ensures { incumbent.new ≡ adopted_of (instance_of self.now.sheet.now.bytes.now) self.now.x.now incumbent.old }
    {
        if self.replaces(incumbent) {
            incumbent.copy_from_slice(self.x);
        }
    }
}
