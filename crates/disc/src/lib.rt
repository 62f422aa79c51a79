// The disc: its state, what can be asked of it, the check of its rules, and the disc after a change.
// It knows what is on the disc by the disc state alone and never sees a sector's bytes. Every value goes in and comes back by value.
// Document 01 is the specification; specs/ restates it as definitions, and every contract cites those.
#![tactic(auto)]

mod apply;
mod blank;
mod check;
mod find;
mod state;
mod verdict;

pub use blank::Blank;
pub use state::Disc;
pub use verdict::Verdict;
