// The lower layer's commands: what each is decided to on a disc, from the command block and the lengths of data and reply buffer alone.
// A decision says what changes of the disc and what is done to the bytes; this layer never sees a sector.
// Document 01 is the specification; specs/ restates it as definitions, and every contract cites those.
#![tactic(auto)]

mod change;
mod close;
mod entry;
mod flush;
mod holder;
mod perform;
mod read;
mod ready;
mod reserve;
mod session;
mod track_information;
mod write;

pub use entry::{decide, judge, judge_as_asked};
