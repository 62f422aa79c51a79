// The reports: what REQUEST SENSE, READ CAPACITY, READ DISC INFORMATION and READ TRACK INFORMATION say of a disc, and what INQUIRY and GET
// CONFIGURATION say of the drive. They ask nothing of a disc: its list may be any.
// Document 01 is the specification, as document 02 amends it; specs/ restates it as definitions, and every contract cites those.
#![tactic(auto)]

mod capacity;
mod disc_information;
mod identity;
mod sense;
mod track_information;

pub use capacity::read_capacity;
pub use disc_information::read_disc_information;
pub use identity::{get_configuration, inquiry};
pub use sense::request_sense;
pub use track_information::{track_found, track_numbered};
