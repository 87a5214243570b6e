// Moving costs: opening, running a list of records, reporting. Document 01, "The costs that move", "Records", "Reporting".
#![tactic(auto)]

mod amounts;
pub mod answers;
mod bound;
mod checked;
mod clash;
mod edge_message;
mod edge_record;
mod end;
mod filling;
mod incumbent;
mod indexes;
mod label_message;
mod labelled;
mod leasts;
mod lent;
mod limit;
mod list;
mod lows;
mod opening;
mod records;
mod reporting;
mod round_record;
mod rounding;
mod rows;
mod running;
mod share;
mod state;
mod turn;
mod usable;

pub use answers::{Answer, Report};
pub use end::End;
pub use indexes::{edges_by, places_by_label};
pub use list::run;
pub use opening::open;
pub use reporting::report;

// What reading promises, passed on to the layers above.
pub use instance::{Layout, Refusal, Sheet, exclusive, read};
