// Fragments: block numbers and sector addresses, one record of the fragment list, and walks along the records.
// Everything here is total: the fields of a record may hold any numbers, and what is pending is given as two. Which command makes what of
// a record stands in the crates above.
#![tactic(auto)]

mod address;
mod check;
mod fragment;
mod list;
mod numbered;
mod tail;

pub use address::{Block, Lba, WideBlock, left_over, missing, sectors_in, whole_blocks};
pub use check::list_is_sound;
pub use fragment::{Fragment, Kind};
pub use list::{
    LIMIT, Reach, first_of_session, has_incomplete_reserved, highest_readable, in_use, last_record,
    pending_of, record_numbered, used,
};
pub use numbered::Entry;
