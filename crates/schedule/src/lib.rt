// Sweeps: the forward and the backward list of records over a sheet. Document 01, "Sweeps".
//
// The code names the layer below it, moving, which passes on what reading promises, and the index.
#![tactic(auto)]

mod edges;
mod labels;
mod sweep;
mod writer;

pub use sweep::{sweep_length, write_sweep};
