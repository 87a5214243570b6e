// Placing all nodes, or naming nodes that cannot all be placed; and placing them at least cost. Document 02, wishes 4 and 6.
#![tactic(auto)]

mod all;
mod answer;
mod assign;
mod assigning;
mod bids;
mod choices;
mod filling;
mod greedy;
mod lowering;
mod moves;
mod offers;
mod paths;
mod search;
mod seats;
mod smallest;
mod tables;
mod tight;
mod words;

pub use answer::place;
pub use assigning::{Costed, cheapest};
