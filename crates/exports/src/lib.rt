// The calls for C and Rust, on numbers and slices: a slice passes as a pointer and a length. `include/cirbaldu.h` declares them.
//
// None has a `requires`, and the one `ensures` of each fixes its answer and every lent buffer. One choice is left open: which
// set of nodes placing names where no matching exists. What holds of the set is said.
#![tactic(auto)]

mod matching;
mod moving;
mod reading;
mod storing;
mod sweeping;

pub use matching::cirbaldu_place;
pub use moving::{cirbaldu_open, cirbaldu_report, cirbaldu_run};
pub use reading::{cirbaldu_edge, cirbaldu_read};
pub use sweeping::cirbaldu_sweep;
