// The program as a function: from the bytes of a sheet and of a list of records to the text that is printed.
#![tactic(auto)]

mod printing;
mod program;
mod room;
mod text;

pub use printing::{compose, compose_numbers, refusal_text};
pub use program::answer;
pub use room::{record_buffer, sheet_buffer};
