// What replaying a trace prints: a line for each record, and the disc that the records lead to.
// No sector is kept and no data is needed: the disc decides by lengths alone.
#![tactic(auto)]

mod input;
mod line;
mod replay;

pub use input::{Ending, replay_from};
pub use line::Line;
pub use replay::{Played, Replay};
