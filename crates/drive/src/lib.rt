// The upper layer of the drive: it moves sectors between data, pending buffer, medium and reply as the lower layer decides.
// It sees only what the lower layer promises: no field of a fragment, no rule of the list.
#![tactic(auto)]

mod bytes;
mod entry;
mod gather;
mod medium;
mod reply;
mod transfer;

pub use entry::{Outcome, Response, command, serve};
