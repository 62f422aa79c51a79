// The table of contents of a fragment list: its closed sessions, and the bytes that READ TOC says of them, written into a lent buffer.
// Everything here is total: the list may be any.
#![tactic(auto)]

mod closed;
mod entry;
mod table;

pub use entry::LENGTH as ENTRY;
pub use table::{HEADER, LEAD_OUT, LONGEST, write};
