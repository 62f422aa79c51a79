// What a command is decided to, as values without a disc: the answer, what changes of the disc, what is done to the bytes, a report.
// Document 01 is the specification; specs/ restates it as definitions, and every contract cites those.
#![tactic(auto)]

mod change;
mod decision;
mod flushing;
mod plan;
mod run;

pub use change::{Change, Effect};
pub use decision::Decision;
pub use flushing::Flushing;
pub use plan::{Flush, Plan, Transfer};
