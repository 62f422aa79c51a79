// What the drive is told and what it says: command blocks, the lengths that go with them, sense, answers and their numbers, reports.
// Nothing here needs a disc.
#![tactic(auto)]

mod answer;
mod command;
mod inquiry;
mod lengths;
mod reply;
mod reports;

pub use answer::{Answer, DriveRefusal, LinkRefusal, Sense};
pub use command::Command;
pub use lengths::{BLOCK_LENGTH, CDB_LENGTH, FOURTH_REQUEST_TYPE, SECTOR_LENGTH};
pub use reply::{Content, Reply};
pub use reports::{DiscReport, TrackReport};
