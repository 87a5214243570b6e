// An index of things by a key below 64: for each key a row of 65 numbers, how many things have the key and then those things, rising.
#![tactic(auto)]

mod table;

pub use table::Index;
